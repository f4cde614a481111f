// The zero value of each part of a record that is held by value: nothing present, every cell 0.
ghost use Rattle.std.specs.Prelude.{◌≡◌};
ghost use Rattle.header.specs.Zero.{no_optional_text, no_address};

use crate::{Address, OptionalText};
use optional::OptionalNumber;

pub const NO_NUMBER: OptionalNumber = OptionalNumber {
    present: false,
    value: 0,
};

pub fn no_optional_text() -> OptionalText
    ensures { result ≡ no_optional_text }
{
    OptionalText {
        present: false,
        text: text::no_text(),
    }
}

pub fn no_address() -> Address
    ensures { result ≡ no_address }
{
    Address {
        urn: NO_NUMBER,
        name: no_optional_text(),
    }
}
