// The rules (41 to 49) and the sizes (52 to 54): records that break one, and beside them the nearest that keep it. The
// writer has no header size that could be wrong (51): it writes the right one.
use crate::cases::{case, case_of};
use crate::lists::equal;
use crate::plan::Key::*;
use crate::plan::{Change, plain};
use std::io;

// Rules (a) to (e).
pub fn rules_a_to_e(rt: &impl Print) -> io::Result<()> {
    // (a): G7 without G1 and with it. G1 26 and the requests 3: 62 bits in 8 octets.
    case(rt, &[Requests.is(0)], 1)?;
    case(rt, &[Urn.is(207), Requests.is(0)], 1)?;
    // (b): G8 with G6; G6 alone: 33 + 33 = 66 bits in 9 octets.
    case(rt, &[G6.is(1), Code.is(1)], 0)?;
    case(rt, &[G6.is(1)], 1)?;
    // (b): G8 with G7; G8 alone: 33 + 26 + 40 = 99 bits in 13 octets.
    case(rt, &[Urn.is(207), Requests.is(0), Code.is(1)], 0)?;
    case(rt, &[Urn.is(207), Code.is(1)], 0)?;
    // (c) and (d): UMF 1 or 4 with G4, which has 4 + 7 + 1 bits: 45 in 6 octets. Without it 33 bits in 5.
    case(rt, &[Umf.is(1), Fad.is(2)], 1)?;
    case(rt, &[Umf.is(2), Fad.is(2)], 1)?;
    case(rt, &[Umf.is(4), Fad.is(2)], 1)?;
    case(rt, &[Umf.is(5), Fad.is(2)], 1)?;
    case(rt, &[Umf.is(1)], 1)?;
    case(rt, &[Umf.is(4)], 1)?;
    // (e): compression with G8; compression alone stands among the numbers.
    case(rt, &[Compression.is(0), Code.is(1)], 0)
}

// Two blocks, of which each may have a message size: 25 bits before them, with a header size, and 44 in each
// that has one: 113 in 15 octets.
fn pair(rt: &impl Print, changes: &[Change], data: usize) -> io::Result<()> {
    case_of(rt, plain().with(&[Blocks.is(2)]), changes, data)
}

// Rule (f): several blocks have a header size and a message size each. The header size is asked for first, and told
// with no block. One block needs neither; with a header size alone it has 33 + 16 = 49 bits in 7 octets.
pub fn rule_f(rt: &impl Print) -> io::Result<()> {
    pair(rt, &[HeaderSize.is(1), Size.is(1), NextSize.is(1)], 2)?;
    pair(rt, &[HeaderSize.is(0), Size.is(1), NextSize.is(1)], 2)?;
    pair(rt, &[HeaderSize.is(0), Size.absent(), NextSize.is(1)], 2)?;
    pair(rt, &[HeaderSize.is(0), Size.is(1), NextSize.absent()], 2)?;
    pair(rt, &[HeaderSize.is(0), Size.absent(), NextSize.absent()], 2)?;
    pair(rt, &[HeaderSize.is(1), Size.absent(), NextSize.is(1)], 2)?;
    pair(rt, &[HeaderSize.is(1), Size.is(1), NextSize.absent()], 2)?;
    pair(rt, &[HeaderSize.is(1), Size.absent(), NextSize.absent()], 2)?;
    case(rt, &[HeaderSize.is(1)], 1)
}

// Rules (g) to (i).
pub fn rules_g_to_i(rt: &impl Print) -> io::Result<()> {
    // (g): 73 + 3 = 76 bits in 10 octets.
    case(rt, &[Code.is(5), Cantco.is(1)], 0)?;
    case(rt, &[Code.is(6), Cantco.is(1)], 0)?;
    // (h): 73 + 6 = 79 bits in 10 octets.
    case(rt, &[Code.is(1), Cantpro.is(1)], 0)?;
    case(rt, &[Code.is(2), Cantpro.is(1)], 0)?;
    case(rt, &[Code.is(6), Cantpro.is(1)], 0)?;
    // (i): each request without G5; all three with it: 33 + 26 + 34 + 3 = 96 bits in 12 octets.
    case(rt, &[Urn.is(207), Requests.is(1)], 1)?;
    case(rt, &[Urn.is(207), Requests.is(2)], 1)?;
    case(rt, &[Urn.is(207), Requests.is(4)], 1)?;
    case(rt, &[Urn.is(207), G5.is(1), Requests.is(7)], 1)
}

// Two blocks with header size and message sizes, of which the second has another UMF, and may be a receipt.
fn behind(rt: &impl Print, size: u32, changes: &[Change], data: usize) -> io::Result<()> {
    let p = plain().with(&[
        HeaderSize.is(1),
        Blocks.is(2),
        Size.is(1),
        NextSize.is(size),
    ]);
    case_of(rt, p, changes, data)
}

// Every block is looked at, and not the first alone.
pub fn second_block(rt: &impl Print) -> io::Result<()> {
    // G4 in both: 113 + 2 * 12 = 137 bits in 18 octets. UMF 1 in the second breaks (c).
    behind(rt, 1, &[NextUmf.is(2), Fad.is(2), NextCode.absent()], 2)?;
    behind(rt, 1, &[NextUmf.is(1), Fad.is(2), NextCode.absent()], 2)?;
    // G8 in the second, which owns nothing: 113 + 40 = 153 bits in 20 octets. With UMF 4 it is 53.
    behind(rt, 0, &[NextUmf.is(2), Fad.absent(), NextCode.is(1)], 1)?;
    behind(rt, 0, &[NextUmf.is(4), Fad.absent(), NextCode.is(1)], 1)
}

// A block with G8 owns nothing (54). In UMF 4 it lacks its data at any size (53), but a size that is not the data's
// comes before that (52).
pub fn receipts(rt: &impl Print) -> io::Result<()> {
    case(rt, &[Code.is(1)], 1)?;
    case(rt, &[Umf.is(4), Code.is(1)], 0)?;
    case(rt, &[Umf.is(4), Code.is(1)], 1)?;
    case(rt, &[Umf.is(4), Size.is(0), Code.is(1)], 0)?;
    case(rt, &[Umf.is(4), Size.is(1), Code.is(1)], 1)?;
    case(rt, &[Umf.is(4), Size.is(1), Code.is(1)], 0)?;
    // 73 + 20 = 93 bits in 12 octets.
    case(rt, &[Size.is(0), Code.is(1)], 0)?;
    case(rt, &[Size.is(1), Code.is(1)], 1)
}

// A message size: 33 + 20 = 53 bits in 7 octets. It is what the block owns (52), and without G8 that is something (53).
pub fn one_block(rt: &impl Print) -> io::Result<()> {
    case(rt, &[Size.is(1)], 1)?;
    case(rt, &[Size.is(1)], 2)?;
    case(rt, &[Size.is(2)], 1)?;
    case(rt, &[Size.is(0)], 0)?;
    case(rt, &[Size.is(0)], 1)?;
    // The largest that has 20 bits: 52 unless the data is as much, and then it is too much (12).
    case(rt, &[Size.is(1048575)], 1)?;
    case(rt, &[Size.is(1048575)], 1048575)?;
    case(rt, &[Size.is(1048576)], 1048576)?;
    // 7 octets of header and 65,500 of data.
    case(rt, &[Size.is(65500)], 65500)?;
    case(rt, &[Size.is(65501)], 65501)
}

pub fn several_blocks(rt: &impl Print) -> io::Result<()> {
    pair(rt, &[HeaderSize.is(1), Size.is(1), NextSize.is(2)], 3)?;
    pair(rt, &[HeaderSize.is(1), Size.is(1), NextSize.is(2)], 2)?;
    pair(rt, &[HeaderSize.is(1), Size.is(1), NextSize.is(2)], 4)?;
    // The sum is right, but one block owns nothing. A wrong sum comes before that, and too long a datagram behind it.
    pair(rt, &[HeaderSize.is(1), Size.is(0), NextSize.is(2)], 2)?;
    pair(rt, &[HeaderSize.is(1), Size.is(2), NextSize.is(0)], 2)?;
    pair(rt, &[HeaderSize.is(1), Size.is(0), NextSize.is(1)], 2)?;
    pair(
        rt,
        &[HeaderSize.is(1), Size.is(0), NextSize.is(65535)],
        65535,
    )?;
    // 16 blocks of the largest size: the sum is right, and the data too long.
    equal(rt, 16, 1048575, 16777200)
}

// 16 blocks of one octet, of which the last owns so much.
fn last_of_sixteen(rt: &impl Print, last: Change, data: usize) -> io::Result<()> {
    let p = plain().with(&[HeaderSize.is(1), Size.is(1), NextSize.is(1)]);
    case_of(rt, p, &[Blocks.is(16), last], data)
}

// 729 bits in 92 octets with a size; without one it is (f), and 0 is too little.
pub fn sixteen_blocks(rt: &impl Print) -> io::Result<()> {
    last_of_sixteen(rt, LastSize.is(2), 17)?;
    last_of_sixteen(rt, LastSize.absent(), 16)?;
    last_of_sixteen(rt, LastSize.is(0), 15)
}
