// Datagrams at the limits of document 01, built field by field and read. Each case is one line: its name,
// then `accepted` with the octets of the header and of the user data, or `refused` with the number, the place
// and, where the refusal is about one, the block. The file stdout has what each has to be, counted from the
// papers; the count stands beside the case, and the places of a header's fields beside the function of
// `headers` that builds it.
#![tactic(auto)]

mod days;
mod draft;
mod groups;
mod headers;
mod several;
mod summary;
mod tell;
mod versions;
mod which;

use draft::Draft;
use headers::{
    addressed, amplified, asking, bare, compressed, dated, filed, from_name, from_urn, handled,
    identified, marked, measured, owning, receipt, referring, several, to_name, to_name_and_urn,
};
use several::compressing;
use std::io;
use tell::{all_with_data, cut, tell};
use versions::every_group;

// Document 01's octets A. The fields end with G10's indicator at 32; the fill bits are 33 to 39.
fn octets_a(rt: &impl Print) -> io::Result<()> {
    tell(rt, "A and an octet", b"\x02\x08\x00\x00\x00\x07")?;
    // A block without G8 owns at least 1 octet: 53.
    tell(rt, "A alone", b"\x02\x08\x00\x00\x00")?;
    // Fill bits come before sizes: 9, though the data is missing.
    tell(rt, "A ending in 02, alone", b"\x02\x08\x00\x00\x02")?;
    tell(rt, "A ending in 02", b"\x02\x08\x00\x00\x02\x07")?;
    // 80 sets bit 7 of octet 4, which is 39.
    tell(rt, "A ending in 80", b"\x02\x08\x00\x00\x80\x07")?;
    tell(rt, "A ending in 01", b"\x02\x08\x00\x00\x01\x07")
}

// Document 01's other octets: none, a version that is not legal, B, which is a message to one recipient, and C, the
// receipt for it. B and C have 16 octets.
fn octets_b_and_c(rt: &impl Print) -> io::Result<()> {
    tell(rt, "no octets", b"")?;
    tell(rt, "03", b"\x03")?;
    let b = b"\xE2\x67\x00\x00\x1D\x00\x00\x00\x01\x00\xC1\x37\xE0\x76\x33\x00\x01";
    tell(rt, "B and an octet", b)?;
    let c = b"\xE2\x01\x00\x00\x7D\x06\x00\x00\x01\x00\x08\xBE\x01\xB7\x5B\x00";
    tell(rt, "C alone", c)?;
    // A block with G8 owns no octet: 54.
    let c = b"\xE2\x01\x00\x00\x7D\x06\x00\x00\x01\x00\x08\xBE\x01\xB7\x5B\x00\x01";
    tell(rt, "C and an octet", c)
}

// Names that reach the maximum, behind which there is no marker, and names one character shorter, behind
// which there is one: the two are as long, so each pair has the same octets of header.
fn names(rt: &impl Print) -> io::Result<()> {
    let cases = [
        ("originator of 64", from_name(64), 1),
        ("originator of 63", from_name(63), 1),
        // The name's 7 bits and the marker's end at 22, the block at 22 + 3 + 24 = 49, in 7 octets.
        ("originator of 1", from_name(1), 1),
        ("recipient of 64", to_name(64), 1),
        ("recipient of 64 and another", to_name_and_urn(64), 1),
        ("recipient of 63 and another", to_name_and_urn(63), 1),
    ];
    all_with_data(rt, &cases)
}

// The same for the other texts.
fn texts(rt: &impl Print) -> io::Result<()> {
    let cases = [
        ("file name of 64", filed(64), 1),
        ("file name of 63", filed(63), 1),
        ("marking of 32", marked(32), 1),
        ("marking of 31", marked(31), 1),
        // Behind the 50th character the datagram has 3 bits: a marker would not fit.
        ("amplification of 50", amplified(50), 0),
        ("amplification of 49", amplified(49), 0),
    ];
    all_with_data(rt, &cases)
}

// A text whose first character is the marker: 4 at the text's first bit.
fn empty_texts(rt: &impl Print) -> io::Result<()> {
    let cases = [
        ("empty originator", from_name(0), 1),
        ("empty file name", filed(0), 1),
        ("empty marking", marked(0), 1),
        ("empty amplification", amplified(0), 0),
    ];
    all_with_data(rt, &cases)
}

// At most 16 addressees in both lists. The bit that asks for the 17th is the 16th entry's recurrence bit.
fn recipients(rt: &impl Print) -> io::Result<()> {
    let cases = [
        ("16 recipients", addressed(16, 0), 1),
        // The 16th recipient's recurrence bit: 7 + 27 * 15 = 412.
        ("17 recipients", addressed(17, 0), 1),
        // 16 recipients stand already: G3's presence bit, 7 + 27 * 16 = 439.
        ("16 recipients and G3", addressed(16, 1), 1),
        ("15 and 1", addressed(15, 1), 1),
        // The first recurrence bit of G3: 8 + 27 * 15 = 413.
        ("15 and 2", addressed(15, 2), 1),
    ];
    all_with_data(rt, &cases)
}

// Behind r recipients the 16th entry is G3's entry 15 - r, counted from 0: its recurrence bit stands at
// 8 + 27r + 27 * (15 - r) = 413, whatever r is.
fn information_addressees(rt: &impl Print) -> io::Result<()> {
    let cases = [
        ("8 and 8", addressed(8, 8), 1),
        ("8 and 9", addressed(8, 9), 1),
        ("1 and 15", addressed(1, 15), 1),
        ("1 and 16", addressed(1, 16), 1),
        ("0 and 16", addressed(0, 16), 1),
        ("0 and 17", addressed(0, 17), 1),
    ];
    all_with_data(rt, &cases)
}

// Each address has exactly one form. The fault lies at the second indicator, and nothing behind it is read,
// so the datagrams end with it.
fn forms(rt: &impl Print) -> io::Result<()> {
    let cases = [
        // URN's indicator 6, URN 7 to 30, name's indicator 31.
        (
            "both forms",
            Draft::start()
                .flag(true)
                .flag(true)
                .number(24, 207)
                .flag(true),
            0,
        ),
        // URN's indicator 6, name's indicator 7.
        ("neither form", Draft::start().flag(true).absent(2), 0),
        // G1 5, G2 6, recurrence 7, first recipient 8 to 33, recurrence 34, indicators 35 and 36.
        (
            "neither form of the second recipient",
            Draft::start()
                .flag(false)
                .flag(true)
                .flag(true)
                .urn(3)
                .flag(false)
                .absent(2),
            0,
        ),
    ];
    all_with_data(rt, &cases)
}

// At most 16 blocks and 4 references.
fn lists(rt: &impl Print) -> io::Result<()> {
    let cases = [
        // 25 + 44 * 2 = 113 bits in 15 octets.
        ("2 blocks", several(15, 2), 2),
        // 25 + 44 * 16 = 729 bits in 92 octets.
        ("16 blocks", several(92, 16), 16),
        // The 16th block's recurrence bit: 25 + 44 * 15 = 685.
        ("17 blocks", several(97, 17), 17),
        // 32 + 61 + 1 = 94 bits in 12 octets.
        ("1 reference", referring(1), 1),
        // 32 + 61 * 4 + 1 = 277 bits in 35 octets.
        ("4 references", referring(4), 1),
        // The 4th reference's recurrence bit: 32 + 61 * 3 = 215.
        ("5 references", referring(5), 1),
    ];
    all_with_data(rt, &cases)
}

// Each part of a DTG at its limits: 3 at the part's first bit. Day 32 has no bits.
fn dates(rt: &impl Print) -> io::Result<()> {
    let cases = [
        ("99-12-31 23:59:59", dated(99, 12, 31, 23, 59, 59), 1),
        ("00-01-01 00:00:00", dated(0, 1, 1, 0, 0, 0), 1),
        ("year 100", dated(100, 7, 3, 16, 27, 55), 1),
        ("month 0", dated(96, 0, 3, 16, 27, 55), 1),
        ("month 13", dated(96, 13, 3, 16, 27, 55), 1),
        ("day 0", dated(96, 7, 0, 16, 27, 55), 1),
    ];
    all_with_data(rt, &cases)
}

// A minute has 6 bits: 63 is the largest that a datagram can hold.
fn times(rt: &impl Print) -> io::Result<()> {
    let cases = [
        ("hour 24", dated(96, 7, 3, 24, 27, 55), 1),
        ("minute 59", dated(96, 7, 3, 16, 59, 55), 1),
        ("minute 60", dated(96, 7, 3, 16, 60, 55), 1),
        ("minute 63", dated(96, 7, 3, 16, 63, 55), 1),
        ("second 60", dated(96, 7, 3, 16, 27, 60), 1),
    ];
    all_with_data(rt, &cases)
}

// Minute 60 in the other three DTGs. The minute stands 16 + 5 bits behind a DTG's first.
fn minutes(rt: &impl Print) -> io::Result<()> {
    // G5 27, G6 28, DTG from 29: minute 50.
    let perish = handled(2).absent(1).flag(true).date(96, 7, 3);
    // G8's DTG from 31: minute 52.
    let answer = handled(2).absent(3).flag(true).stamp(60);
    // G9 31, recurrence 32, address 33 to 58, DTG from 59: minute 80.
    let reference = handled(2).absent(4).flag(true).flag(false).urn(3);
    let cases = [
        ("G6 with minute 60", perish.time(16, 60, 55).absent(4), 1),
        ("G8 with minute 60", answer.number(3, 1).absent(5), 0),
        ("G9 with minute 60", reference.stamp(60).absent(1), 1),
    ];
    all_with_data(rt, &cases)
}

// Version, compression and UMF: 2 or 3 at the field's first bit.
fn codes(rt: &impl Print) -> io::Result<()> {
    let cases = [
        ("version 0", compressed(0, 0), 1),
        ("version 3", compressed(3, 0), 1),
        ("version 15", compressed(15, 0), 1),
        ("compression 1", compressed(2, 1), 1),
        // Compression's code stands at 5.
        ("compression 2", compressed(2, 2), 1),
        // 27 + 6 = 33 bits in 5 octets. UMF stands at 10.
        ("UMF 8", handled(8).absent(6), 1),
        ("UMF 9", handled(9).absent(6), 1),
    ];
    all_with_data(rt, &cases)
}

// Document 01's octets A in version 1: G4's indicator stands at 14, where version 2 has that of the standard version,
// and G10's, the last bit, at 31.
fn old_octets_a(rt: &impl Print) -> io::Result<()> {
    tell(rt, "version 1, A and an octet", b"\x01\x08\x00\x00\x07")?;
    tell(rt, "version 1, A alone", b"\x01\x08\x00\x00")?;
    tell(rt, "version 1, A ending in 80", b"\x01\x08\x00\x80\x07")?;
    // 8 bits: the header size's indicator, 8, is missing.
    tell(rt, "version 1, A cut to 1", b"\x01")?;
    // 24 bits: precedence 20 to 22 is there, of classification, 23 and 24, one bit is missing.
    tell(rt, "version 1, A cut to 3", b"\x01\x08\x00")?;
    let cases = [
        ("version 1, minute 59", versions::dated(7, 3, 59), 1),
        ("version 1, minute 60", versions::dated(7, 3, 60), 1),
        ("version 1, every group", every_group(59), 1),
        ("version 1, every group, size 60", every_group(60), 1),
    ];
    all_with_data(rt, &cases)
}

// Octets B and the example of the standard, Table XVIII, which has a name behind a URN.
fn old_octets_b(rt: &impl Print) -> io::Result<()> {
    // The presence bit of the standard version, 67, is not there: 123 - 1 = 122 bits in 16 octets, G5's indicator at 79,
    // G7's at 115, the machine request at 116.
    let b = b"\xE1\x67\x00\x00\x1D\x00\x00\x00\x01\x80\xE0\x1B\x70\xBB\x19\x00\x01";
    tell(rt, "version 1, B and an octet", b)?;
    // Bit 31, the high bit of the fourth octet, is the name's indicator.
    let t =
        b"\xE1\x67\x00\x80\x55\x67\x92\x1A\xFC\x77\x00\x00\x00\xA4\x04\x10\x21\xF8\x06\xDC\x6E\x06";
    tell(rt, "Table XVIII", t)
}

// Bits of one version behind the number of the other: the bit at 14 or 67 is another field.
fn moved_bits(rt: &impl Print) -> io::Result<()> {
    // Version 1: G4 14, FAD 2 in 15 to 18, number 8 in 19 to 25, 18 more: 44 bits in 6 octets. Version 2: standard version
    // 14, its number 2 in 15 to 18, no G4 19, operation 1 in 22 and 23, G10 36: 37 bits in 5 octets.
    tell(rt, "version 1 with G4", b"\x01\x48\x41\x00\x00\x00\x07")?;
    tell(
        rt,
        "the same with 2 in front",
        b"\x02\x48\x41\x00\x00\x00\x07",
    )?;
    // Standard version 15 in version 2, FAD 15 in version 1.
    tell(
        rt,
        "version 2 with standard version",
        b"\x02\xC8\x07\x00\x00\x00\x07",
    )?;
    tell(
        rt,
        "the same with 1 in front",
        b"\x01\xC8\x07\x00\x00\x00\x07",
    )?;
    // In version 1 the bit of G5, 80, is that of G6, and that of G7, 116, is that of G9: recurrence 117, and neither form
    // of an address at 118 and 119.
    let b = b"\xE1\x67\x00\x00\x1D\x00\x00\x00\x01\x00\xC1\x37\xE0\x76\x33\x00\x01";
    tell(rt, "B with 1 in front", b)?;
    // In version 2 the bit of G5, 79, is that of the marking, whose text from 80 finds no marker in 136 bits.
    let b = b"\xE2\x67\x00\x00\x1D\x00\x00\x00\x01\x80\xE0\x1B\x70\xBB\x19\x00\x01";
    tell(rt, "version 1's B with 2 in front", b)
}

// R/C stands at 65.
fn receipt_codes(rt: &impl Print) -> io::Result<()> {
    let cases = [
        ("R/C 0", receipt(2, 0).absent(5), 0),
        ("R/C 1", receipt(2, 1).absent(5), 0),
        ("R/C 6", receipt(2, 6).absent(5), 0),
        ("R/C 7", receipt(2, 7).absent(5), 0),
    ];
    all_with_data(rt, &cases)
}

// Bits that run out inside a number: 1 at the number's first bit.
fn short_numbers(rt: &impl Print) -> io::Result<()> {
    // 8 bits: the header size's indicator, 8, is missing.
    cut(rt, "A cut to 1", bare().block(), 1)?;
    // 24 bits: operation 18, retransmit 20 and precedence 21 to 23 are there, classification, 24, is not.
    cut(rt, "A cut to 3", bare().block(), 3)?;
    // 16 bits of the header size's 9 to 24.
    cut(rt, "header size cut", measured(7).block(), 2)?;
    // 24 bits of the URN's 7 to 30.
    cut(rt, "URN cut", from_urn().block(), 3)?;
    // 48 bits of the hour's 44 to 48: 1 comes before 3.
    cut(rt, "hour 24 cut", dated(96, 7, 3, 24, 27, 55), 6)
}

// Bits that run out inside a text, or right behind one of 64 characters.
fn short_texts(rt: &impl Print) -> io::Result<()> {
    // 80 bits: the name's character i stands at 8 + 7i; character 9 ends at 78, character 10 lacks bits.
    cut(rt, "11th character cut", from_name(64), 10)?;
    // 16 bits of the first character's 10 to 16.
    cut(rt, "first character cut", to_name(64), 2)?;
    // 456 bits end with the name: G2's indicator, 456, is missing.
    cut(rt, "cut behind 64 characters", from_name(64), 57)?;
    // 464 bits: the name ends at 458, and 6 bits are less than a marker; UMF, 461 to 464, lacks one.
    cut(rt, "cut 6 bits behind 64 characters", to_name(64), 58)
}

// Rules (a) and (b), 41 and 42. A broken rule is told at place 0, with the block; beside it stands a header that
// keeps the rule.
fn rules_a_and_b(rt: &impl Print) -> io::Result<()> {
    // G6 28, DTG 29 to 61, G7 62, G8 63 with DTG, extension and R/C to 100, five absent: 106 bits.
    let perish = handled(2)
        .absent(1)
        .flag(true)
        .date(96, 7, 3)
        .time(16, 27, 55);
    // The block from 35, G5 53, G6 54, G7 55 with requests to 58, G8 59.
    let asking_nothing = from_urn()
        .opening(false, 2)
        .handling()
        .absent(2)
        .flag(true)
        .number(3, 0);
    let cases = [
        ("(a) G7 without G1", asking(bare(), 0), 1),
        ("(a) G7 with G1", asking(from_urn(), 0), 1),
        ("(b) G8 with G6", perish.absent(1).answer(1).absent(5), 0),
        // G6 alone: G7 to G10 62 to 65, 66 bits in 9 octets.
        ("(b) G6 alone", perish.absent(4), 1),
        ("(b) G8 with G7", asking_nothing.answer(1).absent(5), 0),
    ];
    all_with_data(rt, &cases)
}

// Rules (c), (d) and (e), 43 to 45.
fn rules_c_to_e(rt: &impl Print) -> io::Result<()> {
    // Compression, the block from 11, G8 32.
    let compressed = compressing()
        .absent(1)
        .opening(false, 2)
        .handling()
        .absent(3);
    let cases = [
        ("(c) UMF 1 with G4", identified(1), 1),
        ("(c) UMF 2 with G4", identified(2), 1),
        ("(d) UMF 4 with G4", identified(4), 1),
        ("(d) UMF 5 with G4", identified(5), 1),
        ("(e) G8 with compression", compressed.answer(1).absent(5), 0),
    ];
    all_with_data(rt, &cases)
}

// Rule (f), 46: several blocks want the header size, which is told with no block, and every message size. Two
// blocks that have them stand among the lists above.
fn rule_f(rt: &impl Print) -> io::Result<()> {
    // 25 + 44 + 24 = 93 bits in 12 octets: the header size is right, and the last block has no size; then the same
    // bits in the other order.
    let with_size = measured(12).opening(true, 2).sized(1).absent(6);
    let without = measured(12).opening(true, 2).handling().absent(6);
    let cases = [
        // 9 + 44 * 2 = 97 bits in 13 octets.
        ("(f) no header size", bare().blocks(2), 2),
        ("(f) last block without size", with_size.block(), 2),
        ("(f) first block without size", without.blocks(1), 2),
    ];
    all_with_data(rt, &cases)
}

// Rules (g) and (h), 47 and 48.
fn rules_g_and_h(rt: &impl Print) -> io::Result<()> {
    // CANTCO 68 with reason 69 to 71, four absent: 76 bits in 10 octets.
    let cantco = |d: Draft| d.flag(true).number(3, 1).absent(4);
    // CANTCO 68, CANTPRO 69 with reason 70 to 75, three absent: 79 bits in 10 octets.
    let cantpro = |d: Draft| d.absent(1).flag(true).number(6, 1).absent(3);
    let cases = [
        ("(g) R/C 5 with CANTCO", cantco(receipt(2, 5)), 0),
        ("(g) R/C 6 with CANTCO", cantco(receipt(2, 6)), 0),
        ("(h) R/C 1 with CANTPRO", cantpro(receipt(2, 1)), 0),
        ("(h) R/C 2 with CANTPRO", cantpro(receipt(2, 2)), 0),
    ];
    all_with_data(rt, &cases)
}

// Rule (i), 49: a request and no G5, for each of the three bits; octets B have both. Then 9 before a rule, and a
// rule before a size.
fn rule_i_and_order(rt: &impl Print) -> io::Result<()> {
    let cases = [
        ("(i) machine request", asking(from_urn(), 1), 1),
        ("(i) acknowledge request", asking(from_urn(), 2), 1),
        ("(i) reply request", asking(from_urn(), 4), 1),
        // The fields end at 36: a fill bit there comes before the rule, and the rule before the missing data.
        ("(a) and a fill bit", asking(bare(), 0).flag(true), 1),
        ("(a) and no data", asking(bare(), 0), 0),
    ];
    all_with_data(rt, &cases)
}

// A message size is what the block owns (52), and a block without G8 owns something (53).
fn message_sizes(rt: &impl Print) -> io::Result<()> {
    let cases = [
        ("message size 1 of 1", owning(1), 1),
        ("message size 2 of 1", owning(2), 1),
        ("message size 1 of 2", owning(1), 2),
        ("message size 0 of 0", owning(0), 0),
    ];
    all_with_data(rt, &cases)
}

// A header size is the header's octets (51): 25 + 24 = 49 bits in 7.
fn header_sizes(rt: &impl Print) -> io::Result<()> {
    // The sum is right, but the first block owns nothing: 53.
    let nothing = measured(15).opening(true, 2).sized(0).absent(6);
    let cases = [
        ("header size 7 of 7", measured(7).block(), 1),
        ("header size 6 of 7", measured(6).block(), 1),
        ("header size 8 of 7", measured(8).block(), 1),
        ("2 blocks of 1 in 3", several(15, 2), 3),
        (
            "2 blocks of 0 and 2",
            nothing.opening(false, 2).sized(2).absent(6),
            2,
        ),
    ];
    all_with_data(rt, &cases)
}

// A block with G8 owns nothing (54); UMF 4 needs data, so the two together are 53 at any size.
fn receipt_sizes(rt: &impl Print) -> io::Result<()> {
    let cases = [
        ("data behind G8", receipt(2, 1).absent(5), 1),
        ("UMF 4 with G8", receipt(4, 1).absent(5), 0),
        ("UMF 4 with G8 and data", receipt(4, 1).absent(5), 1),
        ("UMF 4", handled(4).absent(6), 1),
    ];
    all_with_data(rt, &cases)
}

// Header and data in at most 65,507 octets, judged before any field: version 0 would be 2.
fn lengths(rt: &impl Print) -> io::Result<()> {
    let mut d = [0u8; 65508];
    tell(rt, "65508 zeros", &d)?;
    d[0] = 2;
    d[1] = 8;
    tell(rt, "A in 65508", &d)?;
    // 5 octets of header and 65,502 of data.
    tell(rt, "A in 65507", &d[..65507])
}

fn main(rt: HostRuntime) -> io::Result<()> {
    octets_a(&rt)?;
    octets_b_and_c(&rt)?;
    names(&rt)?;
    texts(&rt)?;
    empty_texts(&rt)?;
    recipients(&rt)?;
    information_addressees(&rt)?;
    forms(&rt)?;
    lists(&rt)?;
    dates(&rt)?;
    times(&rt)?;
    minutes(&rt)?;
    days::all(&rt)?;
    codes(&rt)?;
    old_octets_a(&rt)?;
    old_octets_b(&rt)?;
    moved_bits(&rt)?;
    receipt_codes(&rt)?;
    short_numbers(&rt)?;
    short_texts(&rt)?;
    rules_a_and_b(&rt)?;
    rules_c_to_e(&rt)?;
    rule_f(&rt)?;
    rules_g_and_h(&rt)?;
    rule_i_and_order(&rt)?;
    message_sizes(&rt)?;
    header_sizes(&rt)?;
    receipt_sizes(&rt)?;
    which::all(&rt)?;
    lengths(&rt)
}
