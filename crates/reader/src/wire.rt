// Reading every field of Table I.
ghost use Rattle.std.specs.Prelude.{◌≡◌, length};
ghost use Rattle.bits.specs.Datagrams.{bits_in};
ghost use Rattle.cells.specs.Cells.{zeros};
ghost use Rattle.header.specs.Table.{wire};
ghost use Rattle.into.specs.Into.{IntoTelling};
ghost use Rattle.record_octets.specs.Record.{size_of_header, header_octets};
ghost use Rattle.record_octets.specs.Typed.{TypedHeader};
ghost use Rattle.reader.specs.Reading.{record_of};

use bits::{BitPlace, Datagram};
use cells::store_mark;
use codec::Reading;
use header::layout::HEADER_SIZE;
use leaves::setting::front_version;
use optional::{OptionalNumber, read_optional};
use read_block::block::read_blocks;
use read_front::front::read_front;
use record_octets::in_header;

// Into the octets of a record, which are all 0. The header size is told beside them: a record has only its presence.
pub fn read_fields(s: Datagram, at: BitPlace, h: &mut [u8]) -> Reading<OptionalNumber>
    requires { (h.old ≡ zeros size_of_header) × (length h.old ≡ size_of_header) }
    ensures { IntoTelling wire (λ w. w.size) (λ w. header_octets (record_of w)) (λ w. TypedHeader (record_of w)) (bits_in s.entry) at.0 result h.new }
{
    let at = read_front(s, at, &mut h[in_header::FRONT..in_header::SIZED])?;
    let version = front_version(&h[in_header::FRONT..in_header::SIZED]);
    let (size, at) = read_optional(s, at, HEADER_SIZE)?;
    store_mark(&mut h[in_header::SIZED..in_header::BLOCKS], size.present);
    let end = read_blocks(s, at, version, &mut h[in_header::BLOCKS..in_header::END])?;
    Ok((size, end))
}
