//! Work on lent rows: search, entry, sifting, and two questions about them.
ghost use Rattle.std.specs.Prelude.{◌≡◌, ◌+◌, ◌-◌, ◌<◌, ◌≤◌, ◌++◌, map, length, take, drop, replicate, Decides};
ghost use Rattle.std.specs.Fn.{ComputesKey};
ghost use Rattle.std.specs.List.{insert};
ghost use Rattle.std.specs.List.Sorted.{IsBinarySearchResult, IsSearchInRange};
ghost use Rattle.table.specs.Kind.{Ordered, held};
ghost use Rattle.table.specs.Table.{Ascends, without};

use crate::row::Row;
use crate::table::OrderedTable;
use std::cmp::Ordering;

/// Where a row compares as equal to what is sought, or the place before the first that compares as greater.
// No `binary_search_by`, though its promises are the same: it goes on past an equal row and compares the last one once
// more, and a comparison may read two long texts.
pub fn search_by<T, F: Fn(&T) -> Ordering>(rows: &[T], compare: F) -> Result<usize, usize>
    requires { F.IsAlwaysCallable compare }
    ensures bound { IsSearchInRange result (length rows.now) }
    ensures position { (order : T → Ordering) → ComputesKey F.FnMut order compare → IsBinarySearchResult order rows.now result }
{
    let mut low = 0;
    let mut high = rows.len();
    while low < high {
        let mid = low + (high - low) / 2;
        match compare(&rows[mid]) {
            Ordering::Less => low = mid + 1,
            Ordering::Equal => return Ok(mid),
            Ordering::Greater => high = mid,
        }
    }
    Err(low)
}

/// Opens a place at i among the first n rows, and stores the row there.
pub(crate) fn open_at<R: Copy>(rows: &mut [R], i: usize, n: usize, row: R)
    requires { (i ≤ n) × (n < length rows.old) }
    ensures { rows.new ≡ insert (take n rows.old) i row ++ drop (n + 1) rows.old }
{
    let part = &mut rows[i..=n];
    part.rotate_right(1);
    part[0] = row;
}

/// Moves the rows whose keys another table lacks to the front, and says how many they are.
pub(crate) fn sift<R: Row>(rows: &mut [R], text: &[u8], other: &OrderedTable<R>) -> usize
    requires { Ordered R.Row.kind text.now other.now }
    ensures within { result ≤ length rows.old }
    ensures front { take result rows.new ≡ without R.Row.kind.order (R.Row.kind.key text.now) (held other.now) rows.old }
{
    // A lent slice has no `retain`: each row that is kept is stored after those kept before it.
    let mut kept = 0;
    for i in 0..rows.len() {
        let row = rows[i];
        if other.find(text, &row, text).is_err() {
            rows[kept] = row;
            kept += 1;
        }
    }
    kept
}

/// Empties each row, by a call for each, since `fill` would ask what a clone is.
pub(crate) fn empty<R: Row>(rows: &mut [R])
    ensures { rows.new ≡ replicate (length rows.old) R.Row.kind.zero }
{
    rows.fill_with(|| R::none());
}

/// Whether the keys of rows rise strictly.
pub fn ascending<R: Row>(rows: &[R], text: &[u8]) -> bool
    ensures { Decides result (Ascends R.Row.kind.order (map (R.Row.kind.key text.now) rows.now)) }
{
    rows.is_sorted_by(|row, next| row.compare(text, next, text).is_lt())
}

/// Whether every row from a place on is the row that stands where none is.
pub fn is_zero_from<R: Row>(rows: &[R], from: usize) -> bool
    ensures { Decides result (drop from rows.now ≡ replicate (length rows.now - from) R.Row.kind.zero) }
{
    rows.iter().skip(from).all(|row| row.is_none())
}
