// Which rule, which size and which block a refusal tells where more than one is wrong. The blocks differ in UMF, size
// and G8; what else a case gives, both have.
use crate::cases::shown;
use crate::plan::Key::*;
use crate::plan::{Plan, plain};
use std::io;

// Two blocks with a header size, each with what it owns.
fn both(size: u32, next: u32) -> Plan {
    plain().with(&[
        HeaderSize.is(1),
        Blocks.is(2),
        Size.is(size),
        NextSize.is(next),
    ])
}

// Each rule over all blocks before the next: a rule in block 2, and the one behind it in block 1.
pub fn rule_behind_rule(rt: &impl Print) -> io::Result<()> {
    // UMF 1 with G4, then a receipt; G6 is with both.
    let p = both(1, 0).with(&[Umf.is(1), NextCode.is(1), Fad.is(2), G6.is(1)]);
    shown(rt, "(c) in block 1, (b) in block 2", p, 1)?;
    // UMF 4 and UMF 1, both with G4.
    let p = both(1, 1).with(&[Umf.is(4), NextUmf.is(1), Fad.is(2)]);
    shown(rt, "(d) in block 1, (c) in block 2", p, 2)?;
    // A receipt, then UMF 4, both with G4.
    let p = both(0, 1).with(&[Code.is(1), NextUmf.is(4), Fad.is(2), Compression.is(0)]);
    shown(rt, "(e) in block 1, (d) in block 2", p, 1)?;
    let p = both(0, 0).with(&[Size.absent(), NextCode.is(1), Compression.is(0)]);
    shown(rt, "(f) in block 1, (e) in block 2", p, 1)?;
    let p = both(0, 0).with(&[NextSize.absent(), Code.is(5), Cantco.is(1)]);
    shown(rt, "(g) in block 1, (f) in block 2", p, 1)?;
    // R/C 6 and R/C 2, both with both reasons.
    let p = both(0, 0).with(&[Code.is(6), NextCode.is(2), Cantco.is(1), Cantpro.is(1)]);
    shown(rt, "(h) in block 1, (g) in block 2", p, 0)
}

// One rule in two blocks: the first of them is told.
pub fn rule_twice(rt: &impl Print) -> io::Result<()> {
    let p = both(1, 1).with(&[Requests.is(0)]);
    shown(rt, "(a) in blocks 1 and 2", p, 2)?;
    let p = both(1, 1).with(&[Urn.is(207), Requests.is(4)]);
    shown(rt, "(i) in blocks 1 and 2", p, 2)?;
    let p = both(1, 1).with(&[Blocks.is(3), NextUmf.is(1), Fad.is(2)]);
    shown(rt, "(c) in blocks 2 and 3", p, 3)?;
    let p = both(1, 0).with(&[Blocks.is(3), NextCode.is(1), Cantpro.is(1)]);
    shown(rt, "(h) in blocks 2 and 3", p, 1)
}

// Rule (f) without a header size, behind the rule before it and before the rule behind it.
pub fn missing_header_size(rt: &impl Print) -> io::Result<()> {
    let p = both(1, 0).with(&[HeaderSize.is(0), NextCode.is(1), Compression.is(0)]);
    shown(rt, "(f) no header size, (e) in block 2", p, 1)?;
    let p = both(0, 1).with(&[HeaderSize.is(0), Code.is(5), Cantco.is(1)]);
    shown(rt, "(f) no header size, (g) in block 1", p, 1)
}

// The sum (52), then a body that is missing (53) in any block before one that may not be (54), each from the first
// block.
pub fn bodies(rt: &impl Print) -> io::Result<()> {
    let p = both(1, 1).with(&[NextCode.is(1)]);
    shown(rt, "sum wrong, body behind G8 in block 2", p, 1)?;
    shown(rt, "body behind G8 in block 2", p, 2)?;
    let p = p.with(&[Code.is(1)]);
    shown(rt, "body behind G8 in blocks 1 and 2", p, 2)?;
    let p = both(1, 0).with(&[Code.is(1)]);
    shown(rt, "body behind G8 in block 1, none in block 2", p, 1)
}

// UMF 4 with G8 is 53 at any size, behind the sum.
pub fn format_4(rt: &impl Print) -> io::Result<()> {
    let p = both(1, 0).with(&[NextUmf.is(4), NextCode.is(1)]);
    shown(rt, "UMF 4 with G8 in block 2, sum wrong", p, 2)?;
    let p = p.with(&[NextSize.is(1)]);
    shown(rt, "UMF 4 with G8 in block 2, size 1", p, 2)?;
    let p = p.with(&[Code.is(1), NextSize.is(0)]);
    shown(
        rt,
        "body behind G8 in block 1, UMF 4 with G8 in block 2",
        p,
        1,
    )
}
