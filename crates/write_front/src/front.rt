// The fields up to the end of G3.
ghost use Rattle.codec.specs.Writes.{Room, Writes};
ghost use Rattle.std.specs.Prelude.{◌≡◌, length};
ghost use Rattle.codec.specs.Codec.{number, ◌&◌};
ghost use Rattle.header.specs.Table.{maybe, originator, front};
ghost use Rattle.record_octets.specs.Record.{size_of_front, front_in};

use bits::BitPlace;
use header::layout::{COMPRESSION, VERSION};
use header::{Address, Addresses};
use leaves::numbers::{write_optional, write_word};
use record_octets::{in_front, in_optional_address, in_optional_addresses};
use write_group::part::write_optional_part;

// Version, compression and G1.
fn write_origin(out: &mut [u8], at: BitPlace, x: &[u8]) -> BitPlace
    requires { Room out.old at.0 ((number 4 1 2 2 & maybe 2 0 1 & originator).size ((front_in x.now).version, ((front_in x.now).compression, (front_in x.now).originator))) × (length x.now ≡ size_of_front) }
    ensures { Writes (number 4 1 2 2 & maybe 2 0 1 & originator) ((front_in x.now).version, ((front_in x.now).compression, (front_in x.now).originator)) out.old out.new at.0 result.0 }
{
    let at = write_word(
        out,
        at,
        VERSION,
        &x[in_front::VERSION..in_front::COMPRESSION],
    );
    let at = write_optional(
        out,
        at,
        COMPRESSION,
        &x[in_front::COMPRESSION..in_front::ORIGINATOR],
    );
    write_optional_part::<Address>(
        out,
        at,
        in_optional_address::ADDRESS,
        &x[in_front::ORIGINATOR..in_front::RECIPIENTS],
    )
}

// Every field up to the end of G3, legal. A legal list has the same bits whatever room there was for it: G3 is written as G2 is.
pub fn write_front(out: &mut [u8], at: BitPlace, x: &[u8]) -> BitPlace
    requires { Room out.old at.0 (front.size (front_in x.now)) × (front.check (front_in x.now) ≡ 0) × (length x.now ≡ size_of_front) }
    ensures { Writes front (front_in x.now) out.old out.new at.0 result.0 }
{
    let at = write_origin(out, at, x);
    let at = write_optional_part::<Addresses>(
        out,
        at,
        in_optional_addresses::ADDRESSES,
        &x[in_front::RECIPIENTS..in_front::INFORMATION],
    );
    write_optional_part::<Addresses>(
        out,
        at,
        in_optional_addresses::ADDRESSES,
        &x[in_front::INFORMATION..in_front::END],
    )
}
