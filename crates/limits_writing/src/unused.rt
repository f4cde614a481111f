// One record twice: with 0 in every cell that is not used, and with what would be refused there if it were used.
// Both are written as the same octets: 33 bits, G1's indicators 2, a name of two characters with its marker 21,
// one recipient 27: 83 in 11 octets.
use crate::cases::shown;
use crate::plan::Key::*;
use crate::plan::{Plan, plain};
use crate::tell::{WHOLE, line};
use record_octets::RECORD;
use std::io;

// The reader sets unused cells to 0, and the octets between the cells, so the record is had from its octets and one of
// data.
fn with_zeros(rt: &impl Print) -> io::Result<()> {
    let mut h = [165u8; RECORD];
    let datagram = b"\xA2\x3F\xE0\xBF\x03\x00\x00\x20\x00\x00\x00\x01";
    print!(rt; "unused cells 0")?;
    match reader::read(datagram, &mut h) {
        Ok(_) => line(rt, &h, 1, WHOLE, true),
        Err(refusal) => println!(rt; ": unread {}", u32::from(refusal.fault)),
    }
}

// What is absent has 4,294,967,295 for its number, length or count. Besides: a character 200 behind the name; URNs
// over 24 bits in the cells behind the recipient, in G3 and in G9; month 13 in each DTG; and a UMF 9 in the blocks
// behind the first.
fn filled() -> Plan {
    plain().with(&[
        Name.is(2),
        Recipients.is(1),
        Place.is(2),
        Character.is(200),
        NextRecipient.is(16777216),
        Month.is(13),
        InformationUrn.is(16777216),
        NextUmf.is(9),
        ReferenceUrn.is(16777216),
    ])
}

pub fn unused_cells(rt: &impl Print) -> io::Result<()> {
    with_zeros(rt)?;
    shown(rt, "unused cells filled", filled(), 1)
}
