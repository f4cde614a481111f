// Addresses and lists. An address has exactly one form; inside it a URN over 24 bits is found first (3), then
// both forms or neither (6), then the name's fault (4). One entry too many, or none, is 5.
use crate::cases::{case, case_of};
use crate::plan::Key::*;
use crate::plan::plain;
use std::io;

pub fn forms(rt: &impl Print) -> io::Result<()> {
    // G1 by URN: 33 + 26 = 59 bits in 8 octets.
    case(rt, &[Urn.is(0)], 1)?;
    case(rt, &[Urn.is(16777215)], 1)?;
    case(rt, &[Urn.is(16777216)], 1)?;
    case(rt, &[Urn.is(207), Name.is(3)], 1)?;
    case(rt, &[Neither.is(1)], 1)?;
    case(rt, &[Urn.is(16777216), Name.is(3)], 1)?;
    case(rt, &[Urn.is(207), Name.is(0)], 1)?;
    case(rt, &[Urn.is(16777216), Name.is(0)], 1)
}

// In the lists; a recipient's URN is there unless a case takes it away.
pub fn forms_in_lists(rt: &impl Print) -> io::Result<()> {
    case(rt, &[Recipients.is(1), RecipientUrn.is(16777216)], 1)?;
    case(rt, &[Recipients.is(1), RecipientName.is(3)], 1)?;
    case(rt, &[Recipients.is(1), RecipientUrn.absent()], 1)?;
    case(rt, &[Information.is(1), InformationUrn.absent()], 1)?;
    case(rt, &[References.is(1), ReferenceUrn.absent()], 1)
}

// Each addressee has a recurrence bit and 26 bits of address. 16 in all, however they are divided: 33 + 16 * 27 =
// 465 bits in 59 octets.
pub fn addressees(rt: &impl Print) -> io::Result<()> {
    case(rt, &[Recipients.is(16)], 1)?;
    case(rt, &[Recipients.is(17)], 1)?;
    case(rt, &[Recipients.is(0)], 1)?;
    case(rt, &[Recipients.is(4294967294)], 1)?;
    case(rt, &[Recipients.is(16), Information.is(0)], 1)?;
    case(rt, &[Recipients.is(16), Information.is(1)], 1)?;
    case(rt, &[Recipients.is(15), Information.is(1)], 1)?;
    case(rt, &[Recipients.is(8), Information.is(8)], 1)?;
    case(rt, &[Recipients.is(9), Information.is(8)], 1)?;
    case(rt, &[Recipients.is(8), Information.is(4294967294)], 1)?;
    case(rt, &[Information.is(16)], 1)?;
    case(rt, &[Information.is(17)], 1)?;
    case(rt, &[Information.is(0)], 1)
}

// A header size and so many blocks of one message size.
pub fn equal(rt: &impl Print, n: u32, size: u32, data: usize) -> io::Result<()> {
    let p = plain().with(&[HeaderSize.is(1), NextSize.is(size), LastSize.is(size)]);
    case_of(rt, p, &[Blocks.is(n), Size.is(size)], data)
}

pub fn blocks(rt: &impl Print) -> io::Result<()> {
    // 9 bits, the header size's 16, and 24 + 20 for each block: 25 + 44 = 69 in 9 octets.
    equal(rt, 1, 1, 1)?;
    // 25 + 2 * 44 = 113 in 15 octets.
    equal(rt, 2, 1, 2)?;
    // 25 + 16 * 44 = 729 in 92 octets.
    equal(rt, 16, 1, 16)?;
    equal(rt, 17, 1, 17)?;
    equal(rt, 0, 1, 0)?;
    equal(rt, 4294967294, 1, 1)
}

// Each reference has a recurrence bit, an address of 26 bits, a DTG of 33 and no extension: 61.
pub fn references(rt: &impl Print) -> io::Result<()> {
    // 33 + 61 = 94 bits in 12 octets.
    case(rt, &[References.is(1)], 1)?;
    // 33 + 4 * 61 = 277 bits in 35 octets.
    case(rt, &[References.is(4)], 1)?;
    case(rt, &[References.is(5)], 1)?;
    case(rt, &[References.is(0)], 1)?;
    case(rt, &[References.is(4294967294)], 1)
}
