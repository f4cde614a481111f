// Which rule, which size and which block a refusal tells where more than one is wrong. But for what a case names,
// its header size is the header's octets and its message sizes sum to the data.
use crate::draft::Draft;
use crate::headers::{bare, measured};
use crate::several::{compressing, measured_compressing, measured_from_urn, message_blocks};
use crate::tell::{all_with_data, with_data};
use std::io;

// Each case: its name, what stands before the blocks, their letters, and the octets of user data.
fn tell_all(rt: &impl Print, cases: &[(&str, Draft, &str, usize)]) -> io::Result<()> {
    for &(name, front, letters, data) in cases {
        with_data(rt, name, message_blocks(front, letters), data)?;
    }
    Ok(())
}

// Each rule over all blocks before the next: each in block 2, and the rule behind it in block 1.
fn rule_behind_rule(rt: &impl Print) -> io::Result<()> {
    let cases = [
        // 25 + 117 + 47 = 189 bits in 24 octets.
        ("b", "a", measured(24), "ba", 1),
        // 25 + 56 + 117 = 198 bits in 25 octets.
        ("c", "b", measured(25), "cb", 1),
        // 25 + 56 + 56 = 137 bits in 18 octets.
        ("d", "c", measured(18), "dc", 2),
        // 27 + 84 + 56 = 167 bits in 21 octets.
        ("e", "d", measured_compressing(21), "rd", 1),
        // 27 + 24 + 84 = 135 bits in 17 octets.
        ("f", "e", measured_compressing(17), "fr", 1),
        // 25 + 87 + 24 = 136 bits in 17 octets.
        ("g", "f", measured(17), "gf", 1),
        // 25 + 90 + 87 = 202 bits in 26 octets.
        ("h", "g", measured(26), "hg", 0),
        // 51 + 47 + 90 = 188 bits in 24 octets.
        ("i", "h", measured_from_urn(24), "ih", 1),
    ];
    for (first, second, front, letters, data) in cases {
        let blocks = message_blocks(front, letters);
        let name = format_args!("({first}) in block 1, ({second}) in block 2");
        with_data(rt, name, blocks, data)?;
    }
    Ok(())
}

// One rule in two blocks: the first of them is told.
fn rule_twice(rt: &impl Print) -> io::Result<()> {
    let cases = [
        // 25 + 47 + 47 = 119 bits in 15 octets.
        ("(a) in blocks 1 and 2", measured(15), "aa", 2),
        // 25 + 44 + 56 + 56 = 181 bits in 23 octets.
        ("(d) in blocks 2 and 3", measured(23), "mdd", 3),
        // 25 + 44 + 87 + 44 + 87 = 287 bits in 36 octets.
        ("(g) in blocks 2 and 4", measured(36), "mgmg", 2),
        // 25 + 14 * 44 + 2 * 90 = 821 bits in 103 octets.
        (
            "(h) in blocks 15 and 16",
            measured(103),
            "mmmmmmmmmmmmmmhh",
            14,
        ),
    ];
    tell_all(rt, &cases)
}

// Rule (f): a header size that is missing is told with no block, whatever the blocks have.
fn missing_header_size(rt: &impl Print) -> io::Result<()> {
    let cases = [
        // 9 + 24 + 44 = 77 bits in 10 octets.
        ("(f) no header size, nor the first", bare(), "fm", 2),
        ("(f) no header size, nor the second", bare(), "mf", 2),
        // 9 + 24 + 24 = 57 bits in 8 octets.
        ("(f) no size at all", bare(), "ff", 2),
        // 9 + 16 * 44 = 713 bits in 90 octets.
        (
            "(f) no header size, 16 blocks",
            bare(),
            "mmmmmmmmmmmmmmmm",
            16,
        ),
        // The rule behind it, and the rule before it: 9 + 87 + 44 = 140 bits, 11 + 44 + 84 = 139 bits, in 18 octets.
        ("(f) no header size, (g) in block 1", bare(), "gm", 1),
        (
            "(f) no header size, (e) in block 2",
            compressing().absent(1),
            "mr",
            1,
        ),
    ];
    tell_all(rt, &cases)
}

// Rule (f): the first block whose size is missing.
fn missing_message_size(rt: &impl Print) -> io::Result<()> {
    let cases = [
        // 25 + 24 + 24 = 73 bits in 10 octets.
        ("(f) no block with a size", measured(10), "ff", 2),
        // 25 + 44 + 24 + 44 = 137 bits in 18 octets.
        ("(f) second of 3 without size", measured(18), "mfm", 3),
        // 25 + 15 * 44 + 24 = 709 bits in 89 octets.
        (
            "(f) last of 16 without size",
            measured(89),
            "mmmmmmmmmmmmmmmf",
            16,
        ),
    ];
    tell_all(rt, &cases)
}

// Every other refusal tells its place and no block. 25 + 44 + 44 = 113 bits in 15 octets: block 2 begins at 69, its UMF
// stands at 70, G10's indicator at 112, the fill bits from 113 on.
fn other_refusals(rt: &impl Print) -> io::Result<()> {
    let first = measured(15).opening(true, 2).sized(1).absent(6);
    let wrong_format = first.opening(false, 9).sized(1).absent(6);
    let up_to_g10 = first.opening(false, 2).sized(1).absent(5);
    let cases = [
        ("UMF 9 in block 2", wrong_format, 2),
        ("G10 in block 2", up_to_g10.flag(true), 2),
        (
            "2 blocks and a fill bit",
            up_to_g10.flag(false).flag(true),
            2,
        ),
    ];
    all_with_data(rt, &cases)
}

// A rule, the header size, the sum, then the bodies.
fn sizes_in_order(rt: &impl Print) -> io::Result<()> {
    let cases = [
        // 51 + 44 + 47 = 142 bits in 18 octets; the header says 17.
        (
            "header size wrong, (i) in block 2",
            measured_from_urn(17),
            "mi",
            2,
        ),
        // 25 + 44 + 44 = 113 bits in 15 octets; the header says 14.
        ("header size and sum wrong", measured(14), "mm", 3),
        ("header size wrong, no body", measured(14), "nm", 1),
        ("sum wrong, no body", measured(15), "nm", 2),
        // 25 + 44 + 84 = 153 bits in 20 octets.
        ("sum wrong, body behind G8", measured(20), "ms", 1),
    ];
    tell_all(rt, &cases)
}

// A body that is missing (53) in any block before one that may not be (54), each from the first block.
fn bodies(rt: &impl Print) -> io::Result<()> {
    let cases = [
        // 153 bits in 20 octets.
        (
            "body behind G8 in block 1, none in block 2",
            measured(20),
            "sn",
            1,
        ),
        ("body behind G8 in block 2", measured(20), "ms", 2),
        // 25 + 84 + 84 = 193 bits in 25 octets.
        ("body behind G8 in blocks 1 and 2", measured(25), "ss", 2),
        // 25 + 3 * 44 = 157 bits in 20 octets.
        ("no body in blocks 2 and 3", measured(20), "mnn", 1),
        // 25 + 16 * 44 = 729 bits in 92 octets.
        ("no body in block 16", measured(92), "mmmmmmmmmmmmmmmn", 15),
    ];
    tell_all(rt, &cases)
}

// UMF 4 with G8 is 53 at any size, behind the header size and the sum.
fn format_4(rt: &impl Print) -> io::Result<()> {
    let cases = [
        // 9 + 84 = 93 bits in 12 octets.
        ("UMF 4 with G8, size 0 of 0", bare(), "t", 0),
        ("UMF 4 with G8, size 1 of 1", bare(), "u", 1),
        ("UMF 4 with G8, size 1 of 0", bare(), "u", 0),
        // 153 bits in 20 octets.
        ("UMF 4 with G8 in block 2, size 0", measured(20), "mt", 1),
        ("UMF 4 with G8 in block 2, size 1", measured(20), "mu", 2),
        ("UMF 4 with G8 in block 2, sum wrong", measured(20), "mt", 2),
        (
            "UMF 4 with G8 in block 2, header size wrong",
            measured(21),
            "mt",
            1,
        ),
        // 193 bits in 25 octets.
        (
            "body behind G8 in block 1, UMF 4 with G8 in block 2",
            measured(25),
            "st",
            1,
        ),
    ];
    tell_all(rt, &cases)
}

pub fn all(rt: &impl Print) -> io::Result<()> {
    rule_behind_rule(rt)?;
    rule_twice(rt)?;
    missing_header_size(rt)?;
    missing_message_size(rt)?;
    other_refusals(rt)?;
    sizes_in_order(rt)?;
    bodies(rt)?;
    format_4(rt)
}
