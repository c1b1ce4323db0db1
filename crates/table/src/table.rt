//! The ordered table.
ghost use Rattle.std.specs.Prelude.{◌≡◌, ℕ, ◌≤◌, List, [], ◌∷◌};
ghost use Rattle.std.specs.List.{insert};
ghost use Rattle.std.specs.List.Sorted.{IsSearchInRange};
ghost use Rattle.table.specs.Kind.{Appended, Enters, Inserts, Leaves, Ordered, Puts, Removes, held, place_in};
ghost use Rattle.table.specs.Laws.{InsertAddsNewKeys, PlaceStandsOrBelongs, PutReplacesItsKey, RemovalLeavesOtherKeys};
ghost use Rattle.table.specs.Order.{TotalOrder};
ghost use Rattle.table.specs.Table.{Rest};

use crate::row::Row;
use crate::rows::{empty, open_at, search_by, sift};

/// No row is free for a new key.
#[derive(Clone, Copy, PartialEq, Eq, Debug)]
pub struct Full;

/// Lent rows, of which the first `len` are held: in the order of their keys, unless `push` appended them. Memory is
/// lent, so this is no `Vec`.
// `Ordered` is asked at each call, and is no invariant: rows may hold anything before `clear`. An invariant would
// want the text in each table, where four tables share one, and a removal would still ask that two have one text.
#[derive(Drop)]
pub struct OrderedTable<'a, R> {
    pub rows: &'a mut [R],
    pub len: usize,
}

impl<R> OrderedTable<'_, R> {
    /// The rows that are held; every row, where `len` is past the last.
    pub fn held(&self) -> &[R]
        ensures { result.now ≡ held self.now }
    {
        self.rows.get(..self.len).unwrap_or(&*self.rows)
    }
}

impl<R: Row> OrderedTable<'_, R> {
    /// Where a row's key stands, or where it belongs. The row may have its key in a text of its own.
    pub fn find(&self, text: &[u8], needle: &R, from: &[u8]) -> Result<usize, usize>
        requires { Ordered R.Row.kind text.now self.now }
        ensures place { result ≡ place_in R.Row.kind (R.Row.kind.key from.now needle.now) text.now self.now }
        ensures within { IsSearchInRange result self.now.len }
        ensures total { TotalOrder R.Row.kind.order }
        ensures stands { PlaceStandsOrBelongs R.Row.kind.order }
    {
        search_by(self.held(), |row| row.compare(text, needle, from))
    }

    /// Enters a row at a place, where there is room. Answers as `insert` and `put` do of a row that is new.
    fn enter(&mut self, i: usize, row: R) -> Result<bool, Full>
        requires { (i ≤ self.old.len) × (Rest R.Row.kind.zero self.old.len self.old.rows.now) }
        ensures { Enters R.Row.kind (insert (held self.old) i row) self.old result self.new }
    {
        let n = self.len;
        if n == self.rows.len() {
            return Err(Full);
        }
        open_at(self.rows, i, n, row);
        self.len = n + 1;
        Ok(true)
    }

    /// A row whose key is new goes to its place; where a row of that key stands, that one stays. Answers whether the
    /// key is new.
    pub fn insert(&mut self, text: &[u8], row: R) -> Result<bool, Full>
        requires { Ordered R.Row.kind text.now self.old }
        ensures after { Inserts R.Row.kind text.now row self.old result self.new }
        ensures held { Ordered R.Row.kind text.now self.new }
        ensures members { InsertAddsNewKeys R.Row.kind.order (R.Row.kind.key text.now) }
    {
        match self.find(text, &row, text) {
            Ok(_) => Ok(false),
            Err(i) => self.enter(i, row),
        }
    }

    /// A row whose key is new goes to its place; where a row of that key stands, this one replaces it. Answers whether
    /// the key is new.
    pub fn put(&mut self, text: &[u8], row: R) -> Result<bool, Full>
        requires { Ordered R.Row.kind text.now self.old }
        ensures after { Puts R.Row.kind text.now row self.old result self.new }
        ensures held { Ordered R.Row.kind text.now self.new }
        ensures members { PutReplacesItsKey R.Row.kind.order (R.Row.kind.key text.now) }
    {
        // `insert` differs in this arm alone, which as a closure would want a clause longer than itself.
        match self.find(text, &row, text) {
            Ok(i) => {
                self.rows[i] = row;
                Ok(false)
            }
            Err(i) => self.enter(i, row),
        }
    }

    /// Appends a row to those that are held, whatever its key: rows that are only appended stand as they came, and in
    /// no order of keys.
    pub fn push(&mut self, row: R) -> Result<(), Full>
        requires { Rest R.Row.kind.zero self.old.len self.old.rows.now }
        ensures { Appended R.Row.kind (row ∷ []) self.old result self.new }
    {
        self.enter(self.len, row)?;
        Ok(())
    }

    /// Empties the table, whatever its rows held.
    pub fn clear(&mut self)
        ensures after { Leaves R.Row.kind [] self.old self.new }
        ensures held { (text : List ℕ) → Ordered R.Row.kind text self.new }
    {
        empty(self.rows);
        self.len = 0;
    }

    /// Removes each row whose key another table has.
    pub fn remove_all(&mut self, text: &[u8], other: &OrderedTable<R>)
        requires own { Ordered R.Row.kind text.now self.old }
        requires others { Ordered R.Row.kind text.now other.now }
        ensures after { Removes R.Row.kind text.now other.now self.old self.new }
        ensures held { Ordered R.Row.kind text.now self.new }
        ensures members { RemovalLeavesOtherKeys R.Row.kind.order (R.Row.kind.key text.now) }
    {
        let kept = sift(&mut self.rows[..self.len], text, other);
        empty(&mut self.rows[kept..]);
        self.len = kept;
    }
}
