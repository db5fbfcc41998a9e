//! The crosstable of an event.
ghost use Rattle.std.specs.Prelude.{◌≡◌, ◌++◌, ◌≤◌, IfErr, IfOk, OnErr, OnOk};
ghost use Rattle.cross_table.specs.Crosstable.{crosstable, table_text};
ghost use Rattle.cross_table.specs.Causes.{HasCause, players};

use crate::entrants::Entrants;
use crate::fault::CrossError;
use crate::row::Row;
use crate::writing::push_table;
use sig_index::Games;
use std::alloc::{AllocError, Global};
use std::marker::Model;

// The greatest number of names.
const GREATEST: u32 = 200;

/// The crosstable of an event.
///
/// Contracts see its lines, in the order of ranks, and how many games the event has.
#[derive(Drop)]
pub struct Table {
    rows: Vec<Row>,
    games: usize,
}

impl Model for Table {
    ghost use Rattle.cross_table.specs.Crosstable.{Crosstable};

    ghost Value = { Crosstable };

    ghost use Rattle.cross_table.specs.Keeping.{table_in};

    ghost view = { λ t. table_in t.rows.items t.games };
}

impl Table {
    /// Adds the text of the table. It has a line for each name, with its rank, its points, its games with a known
    /// result and its cells. The last line counts the names and all of the event's games. After want of memory the
    /// bytes are as they were.
    pub fn write(&self, into: &mut Vec<u8>) -> Result<(), AllocError>
        ensures text { OnOk result (into.new.items ≡ into.old.items ++ table_text self.now) }
        ensures unchanged { OnErr result (into.new.items ≡ into.old.items) }
    {
        let mut text = Vec::new(*into.allocator());
        push_table(&mut text, self.rows.as_slice(), self.games)?;
        into.extend_from_slice(text.as_slice())?;
        Ok(())
    }
}

/// The crosstable of an event in a base: of the games that are not deleted, have this event name and two names that differ.
///
/// It is refused if more than 200 names play, and for want of memory.
pub fn cross<G: Games>(alloc: Global, games: &G, event: &[u8]) -> Result<Table, CrossError>
    ensures table { IfOk result (λ table. table ≡ crosstable event.now (G.heads games.now)) }
    ensures few { IfOk result (λ _. players event.now (G.heads games.now) ≤ 200) }
    ensures cause { IfErr result (λ error. HasCause error (players event.now (G.heads games.now))) }
{
    let entrants = Entrants::of(alloc, games, event)?;
    let players = entrants.players();
    if players > GREATEST {
        return Err(CrossError::TooMany(players));
    }
    let rows = entrants.ranked(alloc)?;
    Ok(Table {
        rows,
        games: entrants.games(),
    })
}
