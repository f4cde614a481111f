// Addresses, and lists of them.
ghost use Rattle.std.specs.Prelude.{◌≡◌};
ghost use Rattle.header.specs.Table.{addresses};

use crate::part::{End, end_entries};
use crate::texts::end_optional_text;
use bits::BitPlace;
use cells::load_word;
use header::layout::{NAME, URN};
use header::{Address, Addresses};
use leaves::numbers::end_optional;
use record_octets::{in_address, in_addresses};

impl End for Address {
    fn end(at: BitPlace, x: &[u8]) -> BitPlace {
        let at = end_optional(at, URN, &x[in_address::URN..in_address::NAME]);
        end_optional_text(at, NAME, &x[in_address::NAME..in_address::END])
    }
}

// A legal list of addresses.
impl End for Addresses {
    ghost asks = { λ y. (addresses 15).check y ≡ 0 };

    fn end(at: BitPlace, x: &[u8]) -> BitPlace {
        let count = load_word(&x[in_addresses::COUNT..in_addresses::END]);
        end_entries::<Address>(at, &x[in_addresses::LIST..in_addresses::COUNT], count)
    }
}
