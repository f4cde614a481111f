// Rows of a table put in and taken out by their place, where they lie.
ghost use Rattle.std.specs.Prelude.{◌≡◌, ◌++◌, map, ◌+◌, ◌-◌, ◌<◌, ◌≤◌, length, take};
ghost use Rattle.header.specs.Table.{addresses};
ghost use Rattle.cells.specs.Cells.{inserted_at, removed_at};
ghost use Rattle.record_octets.specs.Record.{size_of_addresses, addresses_in};
ghost use Rattle.order.specs.Values.{address_of, key_of};
ghost use Rattle.order.specs.Requests.{ask_of};
ghost use Rattle.order.specs.Calls.{make};
ghost use Rattle.table_octets.specs.Table.{size_of_key, key_in, key_octets, size_of_row, row_octets, size_of_table};
ghost use Rattle.table_octets.specs.Typed.{TypedKey, TypedRow};
ghost use Rattle.table_octets.specs.Image.{key_image, row_image};
ghost use Rattle.transitions.specs.Octets.{counted};

use cells::{clear, move_down, move_up, store_word};
use header::Requests;
use recipients::new_row;
use table_octets::in_table;

// A new row put in. Those from the place on move up, the last one first.
pub fn put_row(t: &mut [u8], count: u32, at: usize, key: &[u8], asked: Requests, to: &[u8])
    requires { (length t.old ≡ size_of_table) × (at ≤ count) × (count < 32) × (key.now ≡ key_octets (key_image (key_of (key_in key.now)))) × TypedKey (key_image (key_of (key_in key.now))) × (length to.now ≡ size_of_addresses) × ((addresses 15).check (addresses_in to.now) ≡ 0) }
    ensures { (t.new ≡ counted (count + 1) (inserted_at size_of_row count at (row_octets (row_image (key_of (key_in key.now), make (ask_of asked) (map address_of (take (addresses_in to.now).count (addresses_in to.now).list))))) t.old)) × TypedRow (row_image (key_of (key_in key.now), make (ask_of asked) (map address_of (take (addresses_in to.now).count (addresses_in to.now).list)))) }
{
    let here = at * in_table::ENTRY;
    let end = count as usize * in_table::ENTRY;
    move_up(t, here, end, in_table::ENTRY);
    let behind = here + in_table::ENTRY;
    new_row(&mut t[here..behind], key, asked, to);
    store_word(&mut t[in_table::COUNT..in_table::END], count + 1);
}

// A row taken out. Those behind the place move down, the first one first, and the place of the last is 0.
pub fn remove_row(t: &mut [u8], count: u32, at: usize)
    requires { (length t.old ≡ size_of_table) × (at < count) × (count ≤ 32) }
    ensures { t.new ≡ counted (count - 1) (removed_at size_of_row count at t.old) }
{
    let here = at * in_table::ENTRY;
    let last = (count as usize - 1) * in_table::ENTRY;
    move_down(t, here, last, in_table::ENTRY);
    let end = last + in_table::ENTRY;
    clear(&mut t[last..end]);
    store_word(&mut t[in_table::COUNT..in_table::END], count - 1);
}
