// Addresses, and lists of them.
ghost use Rattle.std.specs.Prelude.{◌≡◌};
ghost use Rattle.header.specs.Table.{addresses};

use crate::part::{Write, write_entries};
use crate::texts::write_optional_text;
use bits::BitPlace;
use cells::load_word;
use header::layout::{NAME, URN};
use header::{Address, Addresses};
use leaves::numbers::write_optional;
use record_octets::{in_address, in_addresses};

impl Write for Address {
    fn write(out: &mut [u8], at: BitPlace, x: &[u8]) -> BitPlace {
        let at = write_optional(out, at, URN, &x[in_address::URN..in_address::NAME]);
        write_optional_text(out, at, NAME, &x[in_address::NAME..in_address::END])
    }
}

// A legal list of addresses.
impl Write for Addresses {
    ghost asks = { λ y. (addresses 15).check y ≡ 0 };

    fn write(out: &mut [u8], at: BitPlace, x: &[u8]) -> BitPlace {
        let count = load_word(&x[in_addresses::COUNT..in_addresses::END]);
        write_entries::<Address>(out, at, &x[in_addresses::LIST..in_addresses::COUNT], count)
    }
}
