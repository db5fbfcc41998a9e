//! The rows of a tree.
ghost use Rattle.std.specs.Prelude.{◌≡◌, ◌≤◌, length};
ghost use Rattle.tree_rows.specs.Rows.{row_at};
ghost use Rattle.tree_rows.specs.Keeping.{AreSums, has_key, place_in};

use crate::hit::GameHit;
use crate::key::key_order;
use crate::row::Row;
use cell_core::Move;
use std::alloc::{AllocError, Global};
use std::marker::Model;

/// The rows of a tree: one for each key among the hits that are counted, in the order of keys.
///
/// Contracts see the list of the rows.
#[derive(Debug, Drop)]
pub struct Rows {
    rows: Vec<Row>,
}

impl Model for Rows {
    ghost use Rattle.std.specs.Prelude.{List};
    ghost use Rattle.tree_rows.specs.declared.row.Row.{Row as RowValue};
    ghost use Rattle.tree_rows.specs.Keeping.{AreSums};

    ghost Value = { List RowValue };

    ghost view = { λ r. r.rows.items };

    ghost invariant = { λ r. AreSums r.rows.items };
}

impl Rows {
    ghost use Rattle.std.specs.Prelude.{◌≡◌, ◌≤◌, ◌<◌, [], ◌∷◌, ◌++◌, List, Some, length, All, slice_get, IfOk, OnOk, OnErr};
    ghost use Rattle.tree_rows.specs.declared.hit.GameHit.{GameHit as Hit};
    ghost use Rattle.tree_rows.specs.Rows.{AreRows, HasHit, IsHit, row_at, rows_of};
    ghost use Rattle.tree_rows.specs.Keeping.{HasRoom, added};

    /// The rows of at most 16,777,214 hits. It fails only for want of memory.
    pub fn from_scratch(alloc: Global, hits: &[GameHit]) -> Result<Rows, AllocError>
        requires few { length hits.now ≤ 16777214 }
        ensures rows { IfOk result (λ rows. rows ≡ rows_of hits.now) }
    {
        let mut rows = Rows::new(alloc);
        for hit in hits {
            rows.add(hit)?;
        }
        Ok(rows)
    }

    /// The rows of no hit.
    pub fn new(alloc: Global) -> Rows
        ensures none { result ≡ rows_of [] }
    {
        Rows {
            rows: Vec::new(alloc),
        }
    }

    /// Counts one hit more, if fewer than 16,777,214 are counted. After want of memory the rows are as they were.
    pub fn add_hit(&mut self, hit: &GameHit) -> Result<(), AllocError>
        requires few { AreRows 16777213 self.old }
        ensures rows { (hits : List Hit) → self.old ≡ rows_of hits → OnOk result (self.new ≡ rows_of (hits ++ hit.now ∷ [])) }
        ensures among { OnOk result ((before behind : List Hit) → self.old ≡ rows_of (before ++ behind) → self.new ≡ rows_of (before ++ hit.now ∷ behind)) }
        ensures unchanged { OnErr result (self.new ≡ self.old) }
        ensures hit { IsHit hit.now }
    {
        self.add(hit)
    }

    /// Counts a hit no more, which is among those that are counted.
    pub fn drop_hit(&mut self, hit: &GameHit)
        requires counted { HasHit hit.now self.old }
        ensures rows { (before behind : List Hit) → self.old ≡ rows_of (before ++ hit.now ∷ behind) → self.new ≡ rows_of (before ++ behind) }
    {
        let place = place_in(self.rows.as_slice(), &hit.next);
        if self.rows[place].games == 1 {
            self.rows.remove(place);
        } else {
            self.rows[place].drop_hit(hit);
        }
    }

    /// The row of a key, if there is one.
    pub fn get(&self, key: Option<Move>) -> Option<Row>
        ensures row { result ≡ row_at key self.now }
    {
        find_in(self.rows.as_slice(), &key)
    }

    /// How many rows there are.
    pub fn len(&self) -> usize
        ensures len { result ≡ length self.now }
    {
        self.rows.len()
    }

    /// The row at a place below their number, in the order of keys.
    pub fn at(&self, i: usize) -> Row
        requires place { i < length self.now }
        ensures row { slice_get self.now i ≡ Some result }
    {
        self.rows[i]
    }

    /// All rows, in the order of keys.
    pub fn as_slice(&self) -> &[Row]
        ensures rows { result.now ≡ self.now }
    {
        self.rows.as_slice()
    }

    // Counts one hit more.
    fn add(&mut self, hit: &GameHit) -> Result<(), AllocError>
        requires room { All HasRoom self.old }
        ensures added { OnOk result (self.new ≡ added hit.now self.old) }
        ensures unchanged { OnErr result (self.new ≡ self.old) }
        ensures hit { IsHit hit.now }
    {
        let place = place_in(self.rows.as_slice(), &hit.next);
        if has_key(self.rows.as_slice(), place, &hit.next) {
            self.rows[place].add(hit);
            return Ok(());
        }
        self.rows.insert(place, Row::of(hit))?;
        Ok(())
    }
}

// How many rows stand before a key.
fn place_in(rows: &[Row], key: &Option<Move>) -> usize
    requires { AreSums rows.now }
    ensures place { result ≡ place_in rows.now key.now }
    ensures within { result ≤ length rows.now }
{
    rows.partition_point(|row| key_order(&row.key, key).is_lt())
}

// Whether the row at a place, if there is one, has this key.
#[tactic(auto, using(crate::proofs::Placing::has_past, crate::proofs::Placing::has_at))]
fn has_key(rows: &[Row], place: usize, key: &Option<Move>) -> bool
    ensures { result ≡ has_key rows.now place key.now }
{
    if place >= rows.len() {
        return false;
    }
    key_order(&rows[place].key, key).is_eq()
}

// The row that has this key, if there is one.
fn find_in(rows: &[Row], key: &Option<Move>) -> Option<Row>
    requires { AreSums rows.now }
    ensures { result ≡ row_at key.now rows.now }
{
    let place = place_in(rows, key);
    if has_key(rows, place, key) {
        Some(rows[place])
    } else {
        None
    }
}
