// A block's G9: the messages referred to.

use crate::part::{Check, check_entries};
use cells::load_word;
use codec::Fault;
use header::{Address, Reference, References, Stamp};
use record_octets::{in_reference, in_references};

impl Check for Reference {
    fn check(x: &[u8]) -> Result<(), Fault> {
        Address::check(&x[in_reference::ADDRESS..in_reference::STAMP])?;
        Stamp::check(&x[in_reference::STAMP..in_reference::END])
    }
}

impl Check for References {
    fn check(x: &[u8]) -> Result<(), Fault> {
        let count = load_word(&x[in_references::COUNT..in_references::END]);
        check_entries::<Reference>(3, &x[in_references::LIST..in_references::COUNT], count)
    }
}
