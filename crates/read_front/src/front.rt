// The originator, the recipients and the information addressees, and all fields up to their end.
ghost use Rattle.std.specs.Prelude.{◌≡◌, ◌<◌, ◌≤◌, ◌++◌, length};
ghost use Rattle.bits.specs.Datagrams.{bits_in};
ghost use Rattle.cells.specs.Cells.{zeros, word_octets};
ghost use Rattle.codec.specs.Codec.{number, ◌&◌};
ghost use Rattle.header.specs.Table.{maybe, originator, recipients, information, front};
ghost use Rattle.into.specs.Into.{Into};
ghost use Rattle.record_octets.specs.Record.{optional_number_octets, size_of_optional_address, optional_address_octets, size_of_optional_addresses, optional_addresses_octets, size_of_front, front_octets};
ghost use Rattle.record_octets.specs.Typed.{TypedOptionalNumber, TypedOptionalAddress, TypedOptionalAddresses, TypedFront};

use crate::address::{read_address, read_addresses};
use bits::{BitPlace, Datagram};
use cells::store_mark;
use codec::{Fault, Step};
use flag::{read_flag, read_recurs};
use header::addressees::one_less;
use header::layout::{COMPRESSION, VERSION};
use leaves::addressees::room_behind;
use read_leaves::numbers::{read_optional, read_word};
use record_octets::{in_front, in_optional_address, in_optional_addresses};

// G1.
pub fn read_originator(s: Datagram, at: BitPlace, x: &mut [u8]) -> Step
    requires { (x.old ≡ zeros size_of_optional_address) × (length x.old ≡ size_of_optional_address) }
    ensures { Into originator optional_address_octets TypedOptionalAddress (bits_in s.entry) at.0 result x.new }
{
    let (present, at) = read_flag(s, at)?;
    if present {
        store_mark(
            &mut x[in_optional_address::PRESENT..in_optional_address::ADDRESS],
            present,
        );
        return read_address(
            s,
            at,
            &mut x[in_optional_address::ADDRESS..in_optional_address::END],
        );
    }
    Ok(at)
}

// G2.
pub fn read_recipients(s: Datagram, at: BitPlace, x: &mut [u8]) -> Step
    requires { (x.old ≡ zeros size_of_optional_addresses) × (length x.old ≡ size_of_optional_addresses) }
    ensures { Into recipients optional_addresses_octets TypedOptionalAddresses (bits_in s.entry) at.0 result x.new }
{
    let (present, at) = read_flag(s, at)?;
    if present {
        store_mark(
            &mut x[in_optional_addresses::PRESENT..in_optional_addresses::ADDRESSES],
            present,
        );
        return read_addresses(
            s,
            at,
            15,
            &mut x[in_optional_addresses::ADDRESSES..in_optional_addresses::END],
        );
    }
    Ok(at)
}

// G3, with room for so many. Its presence bit asks for one more, as a recurrence bit does.
pub fn read_information(s: Datagram, at: BitPlace, room: usize, x: &mut [u8]) -> Step
    requires { (x.old ≡ zeros size_of_optional_addresses) × (length x.old ≡ size_of_optional_addresses) × (room ≤ 16) }
    ensures { Into (information room) optional_addresses_octets TypedOptionalAddresses (bits_in s.entry) at.0 result x.new }
{
    let left = one_less(room);
    let (present, at) = read_recurs(s, at, room)?;
    if present {
        store_mark(
            &mut x[in_optional_addresses::PRESENT..in_optional_addresses::ADDRESSES],
            present,
        );
        return read_addresses(
            s,
            at,
            left,
            &mut x[in_optional_addresses::ADDRESSES..in_optional_addresses::END],
        );
    }
    Ok(at)
}

// Version, compression and G1: the first 96 octets.
fn read_origin(s: Datagram, at: BitPlace, x: &mut [u8]) -> Step
    requires { (x.old ≡ zeros 96) × (length x.old ≡ 96) }
    ensures { Into (number 4 1 2 2 & maybe 2 0 1 & originator) (λ v. word_octets v.0 ++ optional_number_octets v.1.0 ++ optional_address_octets v.1.1) (λ v. (v.0 < 4294967296) × TypedOptionalNumber v.1.0 × TypedOptionalAddress v.1.1) (bits_in s.entry) at.0 result x.new }
{
    let at = read_word(
        s,
        at,
        VERSION,
        Fault::Version,
        &mut x[in_front::VERSION..in_front::COMPRESSION],
    )?;
    let at = read_optional(
        s,
        at,
        COMPRESSION,
        &mut x[in_front::COMPRESSION..in_front::ORIGINATOR],
    )?;
    read_originator(s, at, &mut x[in_front::ORIGINATOR..in_front::RECIPIENTS])
}

// Every field up to the end of G3.
pub fn read_front(s: Datagram, at: BitPlace, x: &mut [u8]) -> Step
    requires { (x.old ≡ zeros size_of_front) × (length x.old ≡ size_of_front) }
    ensures { Into front front_octets TypedFront (bits_in s.entry) at.0 result x.new }
{
    let at = read_origin(s, at, &mut x[in_front::VERSION..in_front::RECIPIENTS])?;
    let at = read_recipients(s, at, &mut x[in_front::RECIPIENTS..in_front::INFORMATION])?;
    let room = room_behind(&x[in_front::RECIPIENTS..in_front::INFORMATION]);
    read_information(s, at, room, &mut x[in_front::INFORMATION..in_front::END])
}
