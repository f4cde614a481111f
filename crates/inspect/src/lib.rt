// One look at a table in lent octets, for any octets at all: whether it is well formed, and where the row with a key stands. Both in
// one loop, so that each row is looked at once.
#![tactic(auto)]

ghost use Rattle.std.specs.Prelude.{◌≡◌, ◌<◌, ◌≤◌, length, IfSome, is_some};
ghost use Rattle.cells.specs.Cells.{many};
ghost use Rattle.order.specs.Values.{key_of, by_key};
ghost use Rattle.table.specs.Search.{Placed, index_of};
ghost use Rattle.table.specs.WellFormed.{well_formed};
ghost use Rattle.table.specs.declared.Table.{Table};
ghost use Rattle.table_octets.specs.Table.{size_of_key, key_in, size_of_row, row_in, size_of_table, table_in, size_of_table_rows};
ghost use Rattle.inspect.specs.Places as places;

use cells::{entry, load_word};
use keys::compare_keys;
use std::cmp::Ordering;
use table::Position;
use table_octets::{in_row, in_table};
use well::{row_fine, row_follows};

pub mod keys;
pub mod well;

// The place, whether the key is held there or would stand there.
fn index_of(p: Position) -> usize
    ensures { result ≡ index_of p }
{
    match p {
        Ok(at) | Err(at) => at,
    }
}

// The place so far, one row further. A place that was found stays, and no key is compared any more.
fn further(p: Position, i: usize, key: &[u8], row: &[u8]) -> Position
    requires { (i < 32) × (length key.now ≡ size_of_key) × (length row.now ≡ size_of_row) }
    ensures { result ≡ places.further i (by_key (key_of (key_in key.now)) (key_of (row_in row.now).key)) p }
{
    if index_of(p) < i {
        return p;
    }
    match compare_keys(key, &row[in_row::KEY..in_row::ASKED]) {
        Ordering::Less => p,
        Ordering::Equal => Ok(i),
        Ordering::Greater => Err(i + 1),
    }
}

// The first n rows, one after the other: each is fine and comes after the one before it, so that no key is there twice.
fn look(rows: &[u8], n: usize, key: &[u8]) -> Option<Position>
    requires { (length rows.now ≡ size_of_table_rows) × (n ≤ 32) × (length key.now ≡ size_of_key) }
    ensures { (let t : Table = record { rows = many row_in size_of_row 32 rows.entry.now; count = n } in (is_some result ≡ well_formed t) × IfSome result (Placed t (key_in key.now))) }
{
    let mut place: Position = Err(0);
    let mut last = None;
    for i in 0..n {
        let row = entry(rows, i, in_table::ENTRY);
        if !(row_fine(row) && row_follows(last, row)) {
            return None;
        }
        place = further(place, i, key, row);
        last = Some(row);
    }
    Some(place)
}

// The place of the key, where the table is well formed. A count over 32 is refused before a row is looked at.
pub fn inspect(t: &[u8], key: &[u8]) -> Option<Position>
    requires { (length t.now ≡ size_of_table) × (length key.now ≡ size_of_key) }
    ensures { (is_some result ≡ well_formed (table_in t.now)) × IfSome result (Placed (table_in t.now) (key_in key.now)) }
{
    let count = load_word(&t[in_table::COUNT..in_table::END]);
    if 32 < count {
        return None;
    }
    look(&t[in_table::ROWS..in_table::COUNT], count as usize, key)
}
