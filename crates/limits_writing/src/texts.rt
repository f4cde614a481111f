// Texts at their limits. A text of the maximum has no marker, one that is a character shorter has one: the two
// have as many bits. No character, one too many and a character over 126 are 4.
use crate::cases::{case, case_of};
use crate::plan::Key::*;
use crate::plan::plain;
use std::io;

// G1 in octets A: its two indicators 2 and the text.
pub fn originators(rt: &impl Print) -> io::Result<()> {
    // 33 + 2 + 64 * 7 = 483 bits in 61 octets, and 63 * 7 with 7 for the marker.
    case(rt, &[Name.is(64)], 1)?;
    case(rt, &[Name.is(63)], 1)?;
    // 33 + 2 + 2 * 7 = 49 bits in 7 octets.
    case(rt, &[Name.is(1)], 1)?;
    case(rt, &[Name.is(0)], 1)?;
    case(rt, &[Name.is(65)], 1)?;
    case(rt, &[Name.is(4294967294)], 1)
}

// A name with another character at one of its places, counted from 0.
pub fn characters(rt: &impl Print) -> io::Result<()> {
    case(rt, &[Name.is(3), Place.is(0), Character.is(127)], 1)?;
    case(rt, &[Name.is(64), Place.is(63), Character.is(127)], 1)?;
    case(rt, &[Name.is(3), Place.is(2), Character.is(200)], 1)?;
    // 33 + 2 + 4 * 7 = 63 bits in 8 octets. Character 0 is legal, and the fourth cell of three is not used.
    case(rt, &[Name.is(3), Place.is(2), Character.is(0)], 1)?;
    case(rt, &[Name.is(3), Place.is(3), Character.is(200)], 1)
}

pub fn others(rt: &impl Print) -> io::Result<()> {
    // 33 + 64 * 7 = 481 bits in 61 octets.
    case(rt, &[FileName.is(64)], 1)?;
    case(rt, &[FileName.is(63)], 1)?;
    case(rt, &[FileName.is(0)], 1)?;
    case(rt, &[FileName.is(65)], 1)?;
    // 33 + 32 * 7 = 257 bits in 33 octets.
    case(rt, &[Marking.is(32)], 1)?;
    case(rt, &[Marking.is(31)], 1)?;
    case(rt, &[Marking.is(0)], 1)?;
    case(rt, &[Marking.is(33)], 1)?;
    // G8's DTG, extension, R/C, reasons and amplification's indicator are 40 bits: 33 + 40 + 50 * 7 = 423 in 53
    // octets.
    case(rt, &[Code.is(1), Amplification.is(50)], 0)?;
    case(rt, &[Code.is(1), Amplification.is(49)], 0)?;
    case(rt, &[Code.is(1), Amplification.is(0)], 0)?;
    case(rt, &[Code.is(1), Amplification.is(51)], 0)
}

// Two recipients with names of so many characters.
fn named(rt: &impl Print, len: u32) -> io::Result<()> {
    let p = plain().with(&[
        Recipients.is(2),
        RecipientUrn.absent(),
        NextRecipient.absent(),
    ]);
    case_of(rt, p, &[RecipientName.is(len)], 1)
}

// Behind a name of the maximum the next entry follows at once: 33 + 2 * (1 + 2 + 64 * 7) = 935 bits in 117 octets.
pub fn recipients(rt: &impl Print) -> io::Result<()> {
    named(rt, 64)?;
    named(rt, 63)?;
    named(rt, 65)
}
