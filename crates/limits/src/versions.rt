// Headers of version 1, whose blocks have no standard version and no bit for its presence: from a block's G4 on
// every place is one less than in version 2.
use crate::draft::Draft;

// A block's recurrence bit, UMF, and no G4 or file name: 7 bits.
fn opening(d: Draft, recurrence: bool, umf: u32) -> Draft {
    d.flag(recurrence).number(4, umf).absent(2)
}

// No compression, no address, no header size: the block begins at 9. G5 26, year 27 to 33, month 34 to 37, day 38 to
// 42, hour 43 to 47, minute 48 to 53, second 54 to 59; extension 60, G6 to G10 61 to 65: it ends at 66, in 9 octets.
pub fn dated(month: u32, day: u32, minute: u32) -> Draft {
    opening(Draft::new().number(4, 1).absent(5), false, 2)
        .handling()
        .flag(true)
        .date(96, month, day)
        .time(16, minute, 55)
        .absent(6)
}

// G1 5, address 6 to 31; G2 32, recurrence 33, address 34 to 59; G3 60, recurrence 61, address 62 to 87; header size
// 88, its number 89 to 104.
fn addressed(octets: u32) -> Draft {
    Draft::new()
        .number(4, 1)
        .flag(false)
        .flag(true)
        .urn(207)
        .flag(true)
        .flag(false)
        .urn(3)
        .flag(true)
        .flag(false)
        .urn(4)
        .flag(true)
        .number(16, octets)
}

// Recurrence 105, UMF 106 to 109, G4 110, FAD 111 to 114, number 115 to 121, subtype 122 to 129, file name 130, text
// 131 to 158, message size 159 to 179, codes 180 to 187, marking 188, text 189 to 209.
fn message(d: Draft) -> Draft {
    d.flag(true)
        .number(4, 2)
        .flag(true)
        .number(4, 2)
        .number(7, 5)
        .flag(true)
        .number(7, 9)
        .flag(true)
        .text(3, 64)
        .flag(true)
        .number(20, 1)
        .number(8, 0)
        .flag(true)
        .text(2, 32)
}

// G5 210, DTG 211 to 243, extension 244 to 256; G6 257, DTG 258 to 290; G7 291 to 294; G8 295; G9 296, recurrence 297,
// address 298 to 323, DTG and no extension 324 to 357; G10 358.
fn moments(d: Draft) -> Draft {
    d.flag(true)
        .date(96, 7, 3)
        .time(16, 27, 55)
        .flag(true)
        .number(12, 7)
        .flag(true)
        .date(96, 7, 4)
        .time(16, 27, 55)
        .flag(true)
        .number(3, 1)
        .absent(1)
        .flag(true)
        .flag(false)
        .urn(3)
        .stamp(27)
        .absent(1)
}

// Recurrence 359, UMF 360 to 363, G4 364, file name 365, message size 366 to 386, codes 387 to 394, marking 395, G5 to
// G7 396 to 398; G8 399, DTG and no extension 400 to 433, R/C 434 to 436, CANTCO 437 to 440, CANTPRO 441, amplification
// 442, text 443 to 463; G9 464, G10 465: it ends at 466, in 59 octets.
fn receipt(d: Draft) -> Draft {
    opening(d, false, 2)
        .flag(true)
        .number(20, 0)
        .number(8, 0)
        .absent(4)
        .flag(true)
        .stamp(27)
        .number(3, 6)
        .flag(true)
        .number(3, 5)
        .absent(1)
        .flag(true)
        .text(2, 50)
        .absent(2)
}

// Every group: G8 shuts out G6 and G7, so they stand in two blocks.
pub fn every_group(octets: u32) -> Draft {
    receipt(moments(message(addressed(octets))))
}
