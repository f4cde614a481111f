// The listing of the table of pending messages, a row at a time into lent output.
#![tactic(auto)]

ghost use Rattle.std.specs.Prelude.{◌≡◌, true, ◌<◌, ◌≤◌, length, leb};
ghost use Rattle.table.specs.Rows.{row_of, see};
ghost use Rattle.table.specs.WellFormed.{well_formed};
ghost use Rattle.table_octets.specs.Table.{size_of_row, row_in, size_of_table, table_in};
ghost use Rattle.row_text.specs.Text.{row_text, listed};
ghost use Rattle.row_text.specs.Puts.{Puts};
ghost use Rattle.listing.specs.Listing.{rejected, listing, output_after, listing_no, told};

use bits::OctetSize;
use cells::{entry, load_word};
use codec::Refusal;
use inspect::inspect;
use row_text::rows::{count_line_length, put_count_line, put_row, row_length};
use table_octets::{KEY, TABLE, in_key, in_table};

// No row of a well-formed table has a longer text.
const LONGEST: usize = 4096;

// Why a row is not listed.
#[derive(Clone, Copy)]
pub enum ListingFault {
    NoRoom,
    IllFormed,
}

// The number of a refusal.
impl From<ListingFault> for u32 {
    ghost from_gives = { λ f n. n ≡ listing_no f };

    fn from(f: ListingFault) -> u32 {
        match f {
            ListingFault::NoRoom => 11,
            ListingFault::IllFormed => 30,
        }
    }
}

// The octets of the table's row with a number, from 1 on.
fn row_with(t: &[u8], number: u32) -> &[u8]
    requires { (0 < number) × (number ≤ (table_in t.now).count) × ((table_in t.now).count ≤ 32) × (length t.now ≡ size_of_table) }
    ensures { (listed (see (table_in t.now)) number ≡ row_text (row_of (row_in result.now))) × (length result.now ≡ size_of_row) }
{
    let rows = &t[in_table::ROWS..in_table::COUNT];
    entry(rows, number as usize - 1, in_table::ENTRY)
}

// The length of a row of the listing: row 0 counts the rows, and there is nothing past the last.
fn listed_length(t: &[u8], number: u32) -> OctetSize
    requires { ((table_in t.now).count ≤ 32) × (length t.now ≡ size_of_table) }
    ensures { result.0 ≡ length (listed (see (table_in t.now)) number) }
{
    let count = load_word(&t[in_table::COUNT..in_table::END]);
    if number == 0 {
        return count_line_length(count);
    }
    if count < number {
        return OctetSize(0);
    }
    row_length(row_with(t, number))
}

fn put_listed(out: &mut [u8], t: &[u8], number: u32) -> OctetSize
    requires { (length (listed (see (table_in t.now)) number) ≤ length out.old) × ((table_in t.now).count ≤ 32) × (length t.now ≡ size_of_table) }
    ensures { Puts (listed (see (table_in t.now)) number) out.old out.new 0 result.0 }
{
    let count = load_word(&t[in_table::COUNT..in_table::END]);
    if number == 0 {
        return put_count_line(out, OctetSize(0), count);
    }
    if count < number {
        return OctetSize(0);
    }
    put_row(out, OctetSize(0), row_with(t, number))
}

// Whether a row's text goes into so many octets. With room for the longest it need not be measured.
fn has_room(t: &[u8], number: u32, room: usize) -> bool
    requires { (well_formed (table_in t.now) ≡ true) × (length t.now ≡ size_of_table) }
    ensures { result ≡ leb (length (listed (see (table_in t.now)) number)) room }
{
    LONGEST <= room || listed_length(t, number).0 <= room
}

// Writes a row of the listing: the table has to be well formed (30), then there has to be room (11);
// only then is the first octet written. Done, the output begins with the row's text and is otherwise
// as it was; refused, it is as it was. (The look at the table seeks no key in earnest: the URN 0
// comes first of all, so that only the first row's key is compared with it.)
pub fn list_row(
    t: &[u8; TABLE],
    number: u32,
    out: &mut [u8],
) -> Result<OctetSize, Refusal<ListingFault>>
    ensures { (told result ≡ listing (table_in t.now) number (length out.old)) × (out.new ≡ output_after (see (table_in t.now)) number (listing (table_in t.now) number (length out.old)) out.old) }
{
    let mut key = [0u8; KEY];
    key[in_key::ADDRESS] = 1;
    if inspect(t, &key).is_none() {
        return Err(Refusal::from(ListingFault::IllFormed));
    }
    if !has_room(t, number, out.len()) {
        return Err(Refusal::from(ListingFault::NoRoom));
    }
    Ok(put_listed(out, t, number))
}
