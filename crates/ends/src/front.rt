// The fields up to the end of G3.
ghost use Rattle.std.specs.Prelude.{◌≡◌, ◌+◌, length};
ghost use Rattle.codec.specs.Writes.{Placed};
ghost use Rattle.header.specs.Table.{front};
ghost use Rattle.record_octets.specs.Record.{size_of_front, front_in};

use crate::part::end_optional_part;
use bits::BitPlace;
use header::layout::{COMPRESSION, VERSION};
use header::{Address, Addresses};
use leaves::numbers::end_optional;
use number::end_number;
use record_octets::{in_front, in_optional_address, in_optional_addresses};

// Every field up to the end of G3, legal.
pub fn end_front(at: BitPlace, x: &[u8]) -> BitPlace
    requires { Placed at.0 (front.size (front_in x.now)) × (front.check (front_in x.now) ≡ 0) × (length x.now ≡ size_of_front) }
    ensures { result.0 ≡ at.0 + front.size (front_in x.now) }
{
    let at = end_number(at, VERSION);
    let at = end_optional(
        at,
        COMPRESSION,
        &x[in_front::COMPRESSION..in_front::ORIGINATOR],
    );
    let at = end_optional_part::<Address>(
        at,
        in_optional_address::ADDRESS,
        &x[in_front::ORIGINATOR..in_front::RECIPIENTS],
    );
    let at = end_optional_part::<Addresses>(
        at,
        in_optional_addresses::ADDRESSES,
        &x[in_front::RECIPIENTS..in_front::INFORMATION],
    );
    // A legal list ends at the same place whatever room there was for it.
    end_optional_part::<Addresses>(
        at,
        in_optional_addresses::ADDRESSES,
        &x[in_front::INFORMATION..in_front::END],
    )
}
