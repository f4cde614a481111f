// Addresses, and lists of them.
ghost use Rattle.std.specs.Prelude.{◌≡◌, ◌<◌, length};
ghost use Rattle.codec.specs.Refusals.{check_no};
ghost use Rattle.header.specs.Table.{address, addresses};
ghost use Rattle.record_octets.specs.Record.{size_of_address, address_in, size_of_addresses, addresses_in};

use crate::part::{Check, check_entries};
use crate::texts::check_unit_name;
use cells::{load_flag, load_word};
use codec::Fault;
use header::layout::URN;
use header::{Address, Addresses};
use leaves::numbers::check_optional;
use record_octets::{in_address, in_addresses, in_optional_number};

// The URN over its width, both forms or neither, the name: in this order.
impl Check for Address {
    fn check(x: &[u8]) -> Result<(), Fault> {
        check_optional(URN, &x[in_address::URN..in_address::NAME])?;
        let number = &x[in_address::URN..in_address::NAME];
        let present = load_flag(&number[in_optional_number::PRESENT..in_optional_number::VALUE]);
        check_unit_name(!present, &x[in_address::NAME..in_address::END])
    }
}

pub fn check_address(x: &[u8]) -> Result<(), Fault>
    requires { length x.now ≡ size_of_address }
    ensures { check_no result ≡ address.check (address_in x.now) }
{
    Address::check(x)
}

// A list of 1 to left + 1 addresses.
pub fn check_addresses(left: usize, x: &[u8]) -> Result<(), Fault>
    requires { (left < 16) × (length x.now ≡ size_of_addresses) }
    ensures { check_no result ≡ (addresses left).check (addresses_in x.now) }
{
    let count = load_word(&x[in_addresses::COUNT..in_addresses::END]);
    check_entries::<Address>(left, &x[in_addresses::LIST..in_addresses::COUNT], count)
}

impl Check for Addresses {
    fn check(x: &[u8]) -> Result<(), Fault> {
        check_addresses(15, x)
    }
}
