// Headers of several message blocks. A letter names what a block is: the rule that it breaks, or what it owns.
use crate::draft::Draft;

// An originator's URN and a header size: G1 5, address 6 to 31, G2 32, G3 33, header size 34, its number 35 to 50. The
// blocks begin at 51.
pub fn measured_from_urn(octets: u32) -> Draft {
    Draft::start()
        .flag(true)
        .urn(207)
        .absent(2)
        .flag(true)
        .number(16, octets)
}

// Compression: indicator 4, code 5 and 6, three absent 7 to 9. The header size's indicator stands at 10.
pub fn compressing() -> Draft {
    Draft::new().number(4, 2).flag(true).number(2, 1).absent(3)
}

// The same and a header size: its number 11 to 26. The blocks begin at 27.
pub fn measured_compressing(octets: u32) -> Draft {
    compressing().flag(true).number(16, octets)
}

// A message that owns so much: 8 + 30 + 6 = 44 bits.
fn message(d: Draft, recurrence: bool, octets: u32) -> Draft {
    d.opening(recurrence, 2).sized(octets).absent(6)
}

// A message without size: 8 + 10 + 6 = 24 bits.
fn sizeless(d: Draft, recurrence: bool) -> Draft {
    d.opening(recurrence, 2).handling().absent(6)
}

// A message with G4 that owns 1 octet: recurrence 1, UMF 4, standard version 1, G4 1 + 4 + 7 + 1, file name 1, then
// 30 + 6: 56 bits.
fn identified(d: Draft, recurrence: bool, umf: u32) -> Draft {
    d.flag(recurrence)
        .number(4, umf)
        .flag(false)
        .flag(true)
        .number(4, 2)
        .number(7, 5)
        .absent(2)
        .sized(1)
        .absent(6)
}

// A message with G7 and no G5 that owns 1 octet: 8 + 30, G5 1, G6 1, G7 4, three absent: 47 bits.
fn asking(d: Draft, recurrence: bool, requests: u32) -> Draft {
    d.opening(recurrence, 2)
        .sized(1)
        .absent(2)
        .flag(true)
        .number(3, requests)
        .absent(3)
}

// A receipt up to its code: 8 + 30 + 3 + 38 = 79 bits. With all behind it absent it has 84.
fn receipt(d: Draft, recurrence: bool, umf: u32, octets: u32, code: u32) -> Draft {
    d.opening(recurrence, umf)
        .sized(octets)
        .absent(3)
        .answer(code)
}

// A receipt with G6: 8 + 30, G5 1, G6 34, G7 1, then 38 + 5: 117 bits.
fn perishing(d: Draft, recurrence: bool) -> Draft {
    d.opening(recurrence, 2)
        .sized(0)
        .absent(1)
        .flag(true)
        .date(96, 7, 3)
        .time(16, 27, 55)
        .absent(1)
        .answer(1)
        .absent(5)
}

// R/C 5 with CANTCO: 79 + 4 + 4 = 87 bits.
fn cantco(d: Draft, recurrence: bool) -> Draft {
    receipt(d, recurrence, 2, 0, 5)
        .flag(true)
        .number(3, 1)
        .absent(4)
}

// R/C 1 with CANTPRO: 79 + 1 + 7 + 3 = 90 bits.
fn cantpro(d: Draft, recurrence: bool) -> Draft {
    receipt(d, recurrence, 2, 0, 1)
        .absent(1)
        .flag(true)
        .number(6, 1)
        .absent(3)
}

// R/C 1 in so much: 84 bits.
fn receiving(d: Draft, recurrence: bool, umf: u32, octets: u32) -> Draft {
    receipt(d, recurrence, umf, octets, 1).absent(5)
}

// What breaks a rule has the rule's letter, a where there is no G1, i where there is one. The others: m a message of
// 1 octet, n one of none; r a receipt of none, which breaks (e) behind compression, s one of 1 octet; t and u the
// same two in UMF 4.
fn message_block(d: Draft, recurrence: bool, letter: u8) -> Draft {
    match letter {
        b'a' => asking(d, recurrence, 0),
        b'b' => perishing(d, recurrence),
        b'c' => identified(d, recurrence, 1),
        b'd' => identified(d, recurrence, 4),
        b'f' => sizeless(d, recurrence),
        b'g' => cantco(d, recurrence),
        b'h' => cantpro(d, recurrence),
        b'i' => asking(d, recurrence, 1),
        b'n' => message(d, recurrence, 0),
        b'r' => receiving(d, recurrence, 2, 0),
        b's' => receiving(d, recurrence, 2, 1),
        b't' => receiving(d, recurrence, 4, 0),
        b'u' => receiving(d, recurrence, 4, 1),
        _ => message(d, recurrence, 1),
    }
}

// The blocks that the letters name.
pub fn message_blocks(mut d: Draft, letters: &str) -> Draft {
    let Some((last, others)) = letters.as_bytes().split_last() else {
        return d;
    };
    for letter in others {
        d = message_block(d, true, *letter);
    }
    message_block(d, false, *last)
}
