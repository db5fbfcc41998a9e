//! Which games count.
ghost use Rattle.std.specs.Prelude.{◌≡◌, IfOk};
ghost use Rattle.scid_page.specs.Only.{games_asked};

use crate::end::End;
use base_core::Base;
use game_filter::{Filter, Op};
use head_search::{HeadQuery, search};
use script_text::{Command, CommandError, read_command};
use sig_index::Games;
use std::alloc::Global;

/// The query that items of a search of heads are, as a script has them behind `search and header`, or none without
/// items.
pub fn query_read(alloc: Global, items: Option<&str>) -> Result<Option<HeadQuery>, End> {
    let Some(items) = items else {
        return Ok(None);
    };
    let line = format!(in alloc; "search and header {items}")?;
    match read_command(alloc, line.as_bytes()) {
        Ok(Command::SearchHeader(_, query)) => Ok(Some(query)),
        Err(CommandError::Memory) => Err(End::Memory),
        _ => Err(End::Usage),
    }
}

/// The games of a base that count: those that a query asks for, or all without a query.
pub fn games_asked(alloc: Global, base: &Base, query: &Option<HeadQuery>) -> Result<Filter, End>
    ensures games { IfOk result (λ filter. filter ≡ games_asked query.now base.now) }
{
    let mut filter = Filter::new(alloc, base.len())?;
    if let Some(query) = query {
        search(base, query, Op::And, &mut filter);
    }
    Ok(filter)
}
