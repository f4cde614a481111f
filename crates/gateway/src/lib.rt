// The calls for hosts in C and Rust: each is one call of the gateway, its record, table, key and octets lent,
// its answer in plain numbers.
#![tactic(auto)]

ghost use Rattle.std.specs.Prelude.{◌≡◌, [], ◌-◌, length, drop};
ghost use Rattle.reader.specs.Reading.{reading, user_data};
ghost use Rattle.reader.specs.Told.{to_tell, record_after, Holds};
ghost use Rattle.record_octets.specs.Record.{header_in};
ghost use Rattle.writer.specs.Writing as writer;
ghost use Rattle.table.specs.Rows.{see};
ghost use Rattle.cells.specs.Cells.{zeros};
ghost use Rattle.table_octets.specs.Table.{key_in, size_of_table, table_in};
ghost use Rattle.arguments.specs.Arguments.{posting, receiving, releasing, call_of};
ghost use Rattle.transitions.specs.Transition.{Transition};
ghost use Rattle.listing.specs.Listing as listing;
ghost use Rattle.answers.specs.Numbers.{read_numbers, write_numbers, list_numbers, table_says};

use answers::{SizeAnswer, TableAnswer};
use bits::OctetSize;
use record_octets::RECORD;
use table_octets::{KEY, TABLE};

#[unsafe(no_mangle)]
pub extern "C" fn pruvelaccio_read_octets(datagram: &[u8], header: &mut [u8; RECORD]) -> SizeAnswer
    ensures { (result ≡ read_numbers (to_tell (reading datagram.now))) × (header.new ≡ record_after (reading datagram.now) header.old) × Holds (reading datagram.now) header.new }
{
    let read = reader::read(datagram, header);
    answers::of_reading(read)
}

// Where the user data starts: everything from there on follows the header. A refused datagram has none,
// and the start is its end.
#[unsafe(no_mangle)]
pub extern "C" fn pruvelaccio_data_start(datagram: &[u8]) -> usize
    ensures { (drop result datagram.now ≡ user_data datagram.now) × (result ≡ length datagram.now - length (user_data datagram.now)) }
{
    let data = reader::user_data(datagram);
    datagram.len() - data.len()
}

#[unsafe(no_mangle)]
pub extern "C" fn pruvelaccio_check_octets(header: &[u8; RECORD], count: usize) -> SizeAnswer
    ensures { result ≡ write_numbers (writer.checking (header_in header.now) count) }
{
    answers::of_writing(writer::check(header, OctetSize(count)))
}

#[unsafe(no_mangle)]
pub extern "C" fn pruvelaccio_write_octets(
    header: &[u8; RECORD],
    count: usize,
    out: &mut [u8],
) -> SizeAnswer
    ensures { (result ≡ write_numbers (writer.writing (header_in header.now) count (length out.old))) × (out.new ≡ writer.output_after (header_in header.now) (writer.writing (header_in header.now) count (length out.old)) out.old) }
{
    let written = writer::write(header, OctetSize(count), out);
    answers::of_writing(written)
}

#[unsafe(no_mangle)]
pub extern "C" fn pruvelaccio_empty_octets(t: &mut [u8; TABLE])
    ensures { (t.new ≡ zeros size_of_table) × (see (table_in t.new) ≡ []) × ((table_in t.new).count ≡ 0) }
{
    pending::empty(t);
}

#[unsafe(no_mangle)]
pub extern "C" fn pruvelaccio_post_octets(
    t: &mut [u8; TABLE],
    header: &[u8; RECORD],
    number: u32,
    count: usize,
) -> TableAnswer
    ensures { Transition (call_of (posting (header_in header.now) number count)) t.old (table_says result) t.new × (result.place ≡ 0) }
{
    answers::of_call(pending::post(t, header, number, OctetSize(count)))
}

#[unsafe(no_mangle)]
pub extern "C" fn pruvelaccio_receipt_octets(
    t: &mut [u8; TABLE],
    header: &[u8; RECORD],
    number: u32,
    count: usize,
) -> TableAnswer
    ensures { Transition (call_of (receiving (header_in header.now) number count)) t.old (table_says result) t.new × (result.place ≡ 0) }
{
    answers::of_call(pending::receipt(t, header, number, OctetSize(count)))
}

#[unsafe(no_mangle)]
pub extern "C" fn pruvelaccio_release_octets(t: &mut [u8; TABLE], key: &[u8; KEY]) -> TableAnswer
    ensures { Transition (call_of (releasing (key_in key.now))) t.old (table_says result) t.new × (result.place ≡ 0) }
{
    answers::of_call(pending::release(t, key))
}

#[unsafe(no_mangle)]
pub extern "C" fn pruvelaccio_list_row_octets(
    t: &[u8; TABLE],
    number: u32,
    out: &mut [u8],
) -> SizeAnswer
    ensures { (result ≡ list_numbers (listing.listing (table_in t.now) number (length out.old))) × (out.new ≡ listing.output_after (see (table_in t.now)) number (listing.listing (table_in t.now) number (length out.old)) out.old) }
{
    let listed = listing::list_row(t, number, out);
    answers::of_listing(listed)
}

// The number of the layout, in the export's own name too: a program that was built for another layout finds
// no such name and does not link.
#[unsafe(no_mangle)]
pub extern "C" fn pruvelaccio_layout_1() -> u32
    ensures { result ≡ 1 }
{
    1
}
