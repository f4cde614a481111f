// The fill bits behind the fields.
ghost use Rattle.std.specs.Prelude.{◌≡◌, false};
ghost use Rattle.bits.specs.Datagrams.{bits_in};
ghost use Rattle.bits.specs.Units.{fill_bits};
ghost use Rattle.codec.specs.Refusals.{answer};
ghost use Rattle.reader.specs.Reading.{read_fill};

use bits::{BitPlace, Datagram};
use codec::{Fault, Step};
use flag::read_zero;

// The bits from a place up to a whole octet, each of which has to be 0.
pub fn read_fill(s: Datagram, end: BitPlace) -> Step
    ensures { answer result false ≡ read_fill (fill_bits end.0) (bits_in s.entry) end.0 }
{
    let left = (8 - end.0 % 8) % 8;
    let mut place = end;
    for _ in 0..left {
        place = read_zero(s, place, Fault::Fill)?;
    }
    Ok(place)
}
