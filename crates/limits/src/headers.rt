// Whole headers of the forms that the cases need. Each comment counts the places of its fields.
//
// Without compression the places are: version 0 to 3, compression's indicator 4, G1's 5; without
// addresses G2's 6, G3's 7, the header size's 8, and the block begins at 9 (document 01's octets A).
use crate::draft::Draft;

// No address and no header size: the block begins at 9.
pub fn bare() -> Draft {
    Draft::start().absent(4)
}

// The same, and the block up to its control marking: 9 + 8 + 10, so that G5's indicator is at 27.
pub fn handled(umf: u32) -> Draft {
    bare().opening(false, umf).handling()
}

// Version and compression: indicator 4, code 5 and 6, four absent 7 to 10, a block of 24 bits: it ends
// at 35, in 5 octets.
pub fn compressed(version: u32, code: u32) -> Draft {
    Draft::new()
        .number(4, version)
        .flag(true)
        .number(2, code)
        .absent(4)
        .block()
}

// An originator's name: G1 5, URN's indicator 6, name's indicator 7, text from 8. A name of 64 ends at
// 8 + 7 * 64 = 456, and one of 63 with its marker too. G2, G3 and header size stand at 456 to 458, the
// block's 24 bits end at 483, in 61 octets.
pub fn from_name(count: u32) -> Draft {
    Draft::start().flag(true).name(count).absent(3).block()
}

// An originator's URN: G1 5, address 6 to 31, three absent 32 to 34. The block begins at 35.
pub fn from_urn() -> Draft {
    Draft::start().flag(true).urn(207).absent(3)
}

// One recipient, by name: G1 5, G2 6, recurrence 7, indicators 8 and 9, text from 10. A name of 64 ends
// at 458. G3 458, header size 459, the block's recurrence bit 460, UMF 461 to 464; the block ends at 484,
// in 61 octets.
pub fn to_name(count: u32) -> Draft {
    Draft::start()
        .flag(false)
        .flag(true)
        .flag(false)
        .name(count)
        .absent(2)
        .block()
}

// A recipient by name and one by URN: G2 6, recurrence 7, indicators 8 and 9, text from 10. A name of 64
// ends at 458: recurrence 458, address 459 to 484, G3 485, header size 486. The block's 24 bits end at
// 511, in 64 octets.
pub fn to_name_and_urn(count: u32) -> Draft {
    Draft::start()
        .flag(false)
        .flag(true)
        .flag(true)
        .name(count)
        .flag(false)
        .urn(3)
        .absent(2)
        .block()
}

// So many recipients and information addressees by URN: G1 5, G2 6. With r recipients G2's entries stand
// from 7, entry i at 7 + 27i, and G3's indicator at 7 + 27r; without G2 it stands at 7. G3's entries stand
// from 8 + 27r. With 16 in all the header size's indicator is at 440 (at 440 without G3 too: 439 + 1),
// and the block's 24 bits end at 465, in 59 octets.
pub fn addressed(recipients: u32, information: u32) -> Draft {
    Draft::start()
        .flag(false)
        .addressees(recipients)
        .addressees(information)
        .absent(1)
        .block()
}

// A header size: indicator 8, number 9 to 24. The block begins at 25.
pub fn measured(octets: u32) -> Draft {
    Draft::start().absent(3).flag(true).number(16, octets)
}

// A header size and n blocks of 44 bits from 25, each with message size 1.
pub fn several(octets: u32, n: u32) -> Draft {
    measured(octets).blocks(n)
}

// A file name: the block's recurrence bit 9, UMF 10 to 13, standard version 14, G4 15, file name 16, text
// from 17. A name of 64, or one of 63 with its marker, ends at 465; 16 bits more end at 481, in 61 octets.
pub fn filed(count: u32) -> Draft {
    bare()
        .flag(false)
        .number(4, 2)
        .absent(2)
        .flag(true)
        .text(count, 64)
        .handling()
        .absent(6)
}

// A control marking: 8 bits of the block from 9, message size 17, codes 18 to 25, marking 26, text from
// 27. One of 32, or of 31 with its marker, ends at 251; G5 to G10 end at 257, in 33 octets.
pub fn marked(count: u32) -> Draft {
    bare()
        .opening(false, 2)
        .absent(1)
        .number(8, 0)
        .flag(true)
        .text(count, 32)
        .absent(6)
}

// G4: recurrence 9, UMF 10 to 13, standard version 14, G4 15, FAD 16 to 19, number 20 to 26, subtype 27,
// file name 28, ten bits 29 to 38, G5 to G10 39 to 44: it ends at 45, in 6 octets.
pub fn identified(umf: u32) -> Draft {
    bare()
        .flag(false)
        .number(4, umf)
        .flag(false)
        .flag(true)
        .number(4, 2)
        .number(7, 5)
        .absent(2)
        .handling()
        .absent(6)
}

// G5: indicator 27, year 28 to 34, month 35 to 38, day 39 to 43, hour 44 to 48, minute 49 to 54, second 55
// to 60; extension 61, G6 to G10 62 to 66: it ends at 67, in 9 octets.
pub fn dated(year: u32, month: u32, day: u32, hour: u32, minute: u32, second: u32) -> Draft {
    handled(2)
        .flag(true)
        .date(year, month, day)
        .time(hour, minute, second)
        .absent(6)
}

// G7 in the block that begins where d ends: 8 + 10 bits, G5, G6, G7, the three requests, G8 to G10: 27.
// Behind a URN (35) it ends at 62, in 8 octets; behind no address (9) at 36, in 5.
pub fn asking(d: Draft, requests: u32) -> Draft {
    d.opening(false, 2)
        .handling()
        .absent(2)
        .flag(true)
        .number(3, requests)
        .absent(3)
}

// G8 up to its code: G5 27, G6 28, G7 29, G8 30, DTG 31 to 63, extension 64, R/C 65 to 67. CANTCO's
// indicator is at 68; with all behind it absent the header ends at 73, in 10 octets.
pub fn receipt(umf: u32, code: u32) -> Draft {
    handled(umf).absent(3).answer(code)
}

// An amplification: CANTCO 68, CANTPRO 69, amplification 70, text from 71. One of 50, or of 49 with its
// marker, ends at 421; G9 421 and G10 422 end at 423, in 53 octets, of which one bit is fill.
pub fn amplified(count: u32) -> Draft {
    receipt(2, 1).absent(2).flag(true).text(count, 50).absent(2)
}

// G9: G5 to G8 27 to 30, G9 31, n entries of 61 bits from 32, G10.
pub fn referring(n: u32) -> Draft {
    handled(2).absent(4).flag(true).references(n).absent(1)
}

// A message size in the only block: 9 + 8 bits, indicator 17, size 18 to 37, ten bits less the indicator,
// G5 to G10: 9 + 44 = 53 bits, in 7 octets.
pub fn owning(octets: u32) -> Draft {
    bare().opening(false, 2).sized(octets).absent(6)
}
