// A block's G9: the messages referred to.
ghost use Rattle.std.specs.Prelude.{◌≡◌};
ghost use Rattle.header.specs.Table.{references};

use crate::part::{Write, write_entries};
use bits::BitPlace;
use cells::load_word;
use header::{Address, Reference, References, Stamp};
use record_octets::{in_reference, in_references};

impl Write for Reference {
    fn write(out: &mut [u8], at: BitPlace, x: &[u8]) -> BitPlace {
        let at = Address::write(out, at, &x[in_reference::ADDRESS..in_reference::STAMP]);
        Stamp::write(out, at, &x[in_reference::STAMP..in_reference::END])
    }
}

// A legal list of references.
impl Write for References {
    ghost asks = { λ y. references.check y ≡ 0 };

    fn write(out: &mut [u8], at: BitPlace, x: &[u8]) -> BitPlace {
        let count = load_word(&x[in_references::COUNT..in_references::END]);
        write_entries::<Reference>(
            out,
            at,
            &x[in_references::LIST..in_references::COUNT],
            count,
        )
    }
}
