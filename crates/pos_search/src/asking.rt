//! What a search of a position asks of each game.
ghost use Rattle.std.specs.Prelude.{◌≡◌, ◌≤◌, length, is_none, option_copied, IfSome, IfOk, OnErr};
ghost use Rattle.game_codec.specs.Record.{IsRecord, IsSomeRecord};
ghost use Rattle.pos_index.specs.Hits.{rows_told};
ghost use Rattle.pos_search.specs.Telling.{first_asked, hits_told, tells};

use crate::matching::Sought;
use crate::telling::{Told, hits_told, is_open, ply_told};
use crate::walking::ply_sought;
use game_codec::{OuterLines, RecordFault};
use game_search::Question;
use pos_index::PosIndex;
use sig_index::{Brief, PosQuery};
use std::marker::Model;

/// What is sought, with what an index tells of it, if there is one, and room for the open lines of a game, if it is lent.
#[derive(Drop)]
pub(crate) struct Asked<'s, 'a, 'r> {
    pub(crate) sought: Sought<'s>,
    pub(crate) told: Told<'a>,
    pub(crate) room: Option<&'r mut OuterLines>,
}

impl<'s, 'a, 'r> Model for Asked<'s, 'a, 'r> {
    ghost use Rattle.pos_index.specs.Hits.{rows_told};
    ghost use Rattle.pos_search.specs.Telling.{Asked as PlainAsked};

    ghost Value = { PlainAsked };

    ghost view = { λ asked. record { query = asked.sought; told = asked.told } };
}

impl<'s, 'a, 'r> Asked<'s, 'a, 'r> {
    /// This query, with what the index tells of it and the room that is lent.
    pub(crate) fn new(
        q: &'s PosQuery,
        index: Option<&'a PosIndex>,
        room: Option<&'r mut OuterLines>,
    ) -> Asked<'s, 'a, 'r>
        ensures query { result.query ≡ q.now }
        ensures told { result.told ≡ hits_told q.now (rows_told (option_copied index.entry)) }
        ensures squares { length q.now.board ≡ 64 }
    {
        Asked {
            sought: Sought::new(q),
            told: hits_told(q, index),
            room,
        }
    }
}

impl<'s, 'a, 'r> Question for Asked<'s, 'a, 'r> {
    ghost first = { first_asked };

    ghost tells = { tells };

    fn unread(&mut self, i: u32, sig: &Brief<'_>) -> Option<Option<u32>> {
        let known = ply_told(&mut self.told, i);
        if known.is_none() && is_open(&self.told, i, &self.sought, sig) {
            None
        } else {
            Some(known)
        }
    }

    fn in_record(&mut self, record: &[u8], sig: &Brief<'_>) -> Result<Option<u32>, RecordFault> {
        ply_sought(record, sig, &self.sought, &mut self.room)
    }
}
