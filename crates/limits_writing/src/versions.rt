// Records of version 1. Its blocks have no standard version and no bit for its presence; a record that has one is
// refused with 3, directly behind that block's UMF.
use crate::cases::{case, shown};
use crate::plan::Key::*;
use crate::plan::{Plan, plain};
use crate::worked::{every, octets_b, octets_c, reply};
use std::io;

fn old(p: Plan) -> Plan {
    p.with(&[Version.is(1)])
}

pub fn octets(rt: &impl Print) -> io::Result<()> {
    // The 33 bits of A, the 123 of B and the 126 of C, each less one: 4, 16 and 16 octets.
    shown(rt, "A in version 1", old(plain()), 1)?;
    shown(rt, "B in version 1", old(octets_b()), 1)?;
    shown(rt, "C in version 1", old(octets_c()), 0)
}

pub fn every_group(rt: &impl Print) -> io::Result<()> {
    // 2454 bits in version 2; each of the two blocks has 5 bits less: 2444 in 306 octets.
    let p = every().with(&[Standard.absent(), NextStandard.absent()]);
    shown(rt, "every field but G8 in version 1", old(p), 7)?;
    // 527 - 1 = 526 bits in 66 octets.
    let p = old(reply(6, Cantco.is(5)));
    shown(rt, "a receipt with CANTCO in version 1", p, 0)
}

// Two blocks of 43 bits behind 25, 111 in 14 octets, each with message size 1; then with standard version 0 in the last.
pub fn last_block(rt: &impl Print) -> io::Result<()> {
    let p = old(plain()).with(&[HeaderSize.is(1), Blocks.is(2), Size.is(1), NextSize.is(1)]);
    shown(rt, "2 blocks in version 1", p, 2)?;
    let p = p.with(&[NextStandard.is(0)]);
    shown(rt, "standard version 0 in the last block", p, 2)?;
    // The first block's marking comes before it: 4.
    let p = p.with(&[Marking.is(0)]);
    shown(rt, "the same behind an empty marking", p, 2)?;
    // Version 2 has it in one block or in both.
    let p = p.with(&[Version.is(2), Marking.absent()]);
    shown(rt, "the same in version 2", p, 2)
}

pub fn refused(rt: &impl Print) -> io::Result<()> {
    case(rt, &[Version.is(1), Standard.is(0)], 1)?;
    case(rt, &[Version.is(1), Standard.is(15)], 1)?;
    case(rt, &[Version.is(1), Standard.is(16)], 1)?;
    // Before an empty file name (4), a rule (41), the missing data (53); behind an empty name of G1 (4).
    case(rt, &[Version.is(1), Standard.is(0), FileName.is(0)], 1)?;
    case(rt, &[Version.is(1), Standard.is(0), Requests.is(0)], 1)?;
    case(rt, &[Version.is(1), Standard.is(0)], 0)?;
    case(rt, &[Version.is(1), Name.is(0), Standard.is(0)], 1)?;
    // Version 3 has no layout: 2.
    case(rt, &[Version.is(3), Standard.is(0)], 1)
}
