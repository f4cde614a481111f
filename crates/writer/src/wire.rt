// The header of a legal record: where its fields end, and its bits.
ghost use Rattle.std.specs.Prelude.{◌≡◌, ◌++◌, false, ◌+◌, ◌≤◌, ◌*◌, length, drop, replicate};
ghost use Rattle.bits.specs.Bits.{bits_of, splice};
ghost use Rattle.bits.specs.Units.{fill_bits, whole_octets};
ghost use Rattle.codec.specs.Writes.{Placed, Room, Writes};
ghost use Rattle.header.specs.Table.{maybe, front, blocks, wire};
ghost use Rattle.record_octets.specs.Record.{size_of_header, header_in};
ghost use Rattle.writer.specs.Writing.{wire_of, fields_fault, fields_end, header_size, header_of};

use bits::{BitPlace, OctetSize};
use cells::load_flag;
use ends::front::end_front;
use header::layout::HEADER_SIZE;
use leaves::setting::front_version;
use optional::{OptionalNumber, end_optional, write_optional};
use record_octets::in_header;
use write_block::block::write_blocks;
use write_front::front::write_front;

// The place where the blocks of a record begin, whose fields before them are legal: the blocks end where
// all fields do, and there is room in a datagram for the longest.
pub fn blocks_place(h: &[u8]) -> BitPlace
    requires { (front.check (header_in h.now).front ≡ 0) × (length h.now ≡ size_of_header) }
    ensures { (result.0 + (blocks (header_in h.now).front.version).size (header_in h.now).blocks ≡ fields_end (header_in h.now)) × Placed result.0 53056 }
{
    let sized = load_flag(&h[in_header::SIZED..in_header::BLOCKS]);
    let size = OptionalNumber {
        present: sized,
        value: 0,
    };
    let at = end_front(BitPlace(0), &h[in_header::FRONT..in_header::SIZED]);
    end_optional(at, HEADER_SIZE, size)
}

// The header size where there is one.
fn write_size(out: &mut [u8], at: BitPlace, h: &[u8], size: u32) -> BitPlace
    requires { Room out.old at.0 ((maybe 16 0 65535).size (wire_of (header_in h.now) size).size) × (length h.now ≡ size_of_header) }
    ensures { Writes (maybe 16 0 65535) (wire_of (header_in h.now) size).size out.old out.new at.0 result.0 }
{
    let sized = load_flag(&h[in_header::SIZED..in_header::BLOCKS]);
    let number = OptionalNumber {
        present: sized,
        value: size,
    };
    write_optional(out, at, HEADER_SIZE, number)
}

// The legal blocks of a record, laid out by its version.
fn write_messages(out: &mut [u8], at: BitPlace, h: &[u8]) -> BitPlace
    requires { Room out.old at.0 ((blocks (header_in h.now).front.version).size (header_in h.now).blocks) × ((blocks (header_in h.now).front.version).check (header_in h.now).blocks ≡ 0) × (length h.now ≡ size_of_header) }
    ensures { Writes (blocks (header_in h.now).front.version) (header_in h.now).blocks out.old out.new at.0 result.0 }
{
    let version = front_version(&h[in_header::FRONT..in_header::SIZED]);
    write_blocks(out, at, version, &h[in_header::BLOCKS..in_header::END])
}

// Every field of the table, legal, with this header size where there is one.
fn write_fields(out: &mut [u8], at: BitPlace, h: &[u8], size: u32) -> BitPlace
    requires { Room out.old at.0 (wire.size (wire_of (header_in h.now) size)) × (wire.check (wire_of (header_in h.now) size) ≡ 0) × (length h.now ≡ size_of_header) }
    ensures { Writes wire (wire_of (header_in h.now) size) out.old out.new at.0 result.0 }
{
    let at = write_front(out, at, &h[in_header::FRONT..in_header::SIZED]);
    let at = write_size(out, at, h, size);
    write_messages(out, at, h)
}

// The fill bits from a place up to a whole octet, all 0.
fn write_fill(out: &mut [u8], end: BitPlace)
    requires { 8 * whole_octets end.0 ≤ 8 * length out.old }
    ensures { bits_of out.new ≡ splice (bits_of out.old) end.0 (replicate (fill_bits end.0) false) }
{
    let fill = (8 - end.0 % 8) % 8;
    bits::write_bits(out, end, fill, 0);
}

// The header of a legal record, whose octets are counted and fit.
pub fn write_header(out: &mut [u8], h: &[u8], size: OctetSize)
    requires { (fields_fault (header_in h.now) ≡ 0) × (size.0 ≡ header_size (header_in h.now)) × (header_size (header_in h.now) ≤ length out.old) × (length h.now ≡ size_of_header) }
    ensures { out.new ≡ header_of (header_in h.now) ++ drop (header_size (header_in h.now)) out.old }
{
    let end = write_fields(out, BitPlace(0), h, size.0 as u32);
    write_fill(out, end);
}
