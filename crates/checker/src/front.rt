// The fields up to the end of G3.
ghost use Rattle.std.specs.Prelude.{◌≡◌, ◌≤◌, length};
ghost use Rattle.codec.specs.Refusals.{check_no};
ghost use Rattle.header.specs.Table.{information, front};
ghost use Rattle.record_octets.specs.Record.{size_of_optional_addresses, optional_addresses_in, size_of_front, front_in};

use crate::address::check_addresses;
use crate::part::check_optional_part;
use cells::load_flag;
use codec::Fault;
use header::layout::{COMPRESSION, VERSION};
use header::{Address, Addresses};
use leaves::addressees::room_behind;
use leaves::numbers::{check_optional, check_word};
use record_octets::{in_front, in_optional_address, in_optional_addresses};

// G3, with room for so many: present without room is one too many.
pub fn check_information(room: usize, x: &[u8]) -> Result<(), Fault>
    requires { (room ≤ 16) × (length x.now ≡ size_of_optional_addresses) }
    ensures { check_no result ≡ (information room).check (optional_addresses_in x.now) }
{
    if load_flag(&x[in_optional_addresses::PRESENT..in_optional_addresses::ADDRESSES]) {
        if room == 0 {
            return Err(Fault::Count);
        }
        return check_addresses(
            room - 1,
            &x[in_optional_addresses::ADDRESSES..in_optional_addresses::END],
        );
    }
    Ok(())
}

// Every field up to the end of G3.
pub fn check_front(x: &[u8]) -> Result<(), Fault>
    requires { length x.now ≡ size_of_front }
    ensures { check_no result ≡ front.check (front_in x.now) }
{
    check_word(
        VERSION,
        Fault::Version,
        &x[in_front::VERSION..in_front::COMPRESSION],
    )?;
    check_optional(COMPRESSION, &x[in_front::COMPRESSION..in_front::ORIGINATOR])?;
    check_optional_part::<Address>(
        in_optional_address::ADDRESS,
        &x[in_front::ORIGINATOR..in_front::RECIPIENTS],
    )?;
    check_optional_part::<Addresses>(
        in_optional_addresses::ADDRESSES,
        &x[in_front::RECIPIENTS..in_front::INFORMATION],
    )?;
    let room = room_behind(&x[in_front::RECIPIENTS..in_front::INFORMATION]);
    check_information(room, &x[in_front::INFORMATION..in_front::END])
}
