//! The command that searches the heads of the games.
ghost use Rattle.search_commands.specs.Searching.{search_header_work};
ghost use Rattle.shell_state.specs.Stands.{Fits, Quiet};

use game_filter::Op;
use head_search::search;
use shell_state::{Line, Machine, filter_line};
use sig_index::HeadQuery;

/// The command `search OP header ITEM ..`: matches games by their heads, and gives its line.
pub fn search_header(machine: &mut Machine, op: Op, query: &HeadQuery) -> Line
    requires fits { Fits machine.old }
    ensures quiet { Quiet machine.old (search_header_work op query.now) machine.new result.items }
{
    search(&machine.base, query, op, &mut machine.seat.filter);
    filter_line(&machine.seat.filter)
}
