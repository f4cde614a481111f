// Document 01's octets A, B and C, and records that have every field of Table I between them.
use crate::cases::shown;
use crate::plan::Key::*;
use crate::plan::{Change, Plan, plain};
use std::io;

// URN 207 to URN 3, with G5 and the machine request.
pub fn octets_b() -> Plan {
    plain().with(&[Urn.is(207), Recipients.is(1), G5.is(1), Requests.is(1)])
}

// The receipt: URN 3 to URN 207, R/C 1.
pub fn octets_c() -> Plan {
    plain().with(&[
        Urn.is(3),
        Recipients.is(1),
        RecipientUrn.is(207),
        Code.is(1),
    ])
}

// Compression, addresses of both forms, a header size and two blocks.
fn every_front() -> Plan {
    plain().with(&[
        Compression.is(1),
        Name.is(3),
        Recipients.is(2),
        RecipientUrn.absent(),
        RecipientName.is(64),
        NextRecipient.absent(),
        Information.is(3),
        InformationUrn.is(16777215),
        HeaderSize.is(1),
        Blocks.is(2),
        NextUmf.is(7),
        NextSize.is(4),
        NextStandard.is(9),
    ])
}

// The same, and in each block all that goes without G8.
pub fn every() -> Plan {
    every_front().with(&[
        Umf.is(8),
        Standard.is(9),
        Fad.is(5),
        MessageNumber.is(100),
        Subtype.is(77),
        FileName.is(5),
        Size.is(3),
        Operation.is(2),
        Retransmit.is(1),
        Precedence.is(6),
        Classification.is(1),
        Marking.is(31),
        G5.is(1),
        G6.is(1),
        Requests.is(6),
        References.is(4),
        ReferenceUrn.is(8388609),
        Year.is(99),
        Month.is(12),
        Day.is(31),
        Hour.is(23),
        Minute.is(59),
        Second.is(58),
        Extension.is(4094),
    ])
}

// G8 with an extension, a reason and an amplification, and a message size, which is 0.
pub fn reply(code: u32, reason: Change) -> Plan {
    plain().with(&[
        Urn.is(1),
        Recipients.is(1),
        RecipientUrn.is(10000000),
        HeaderSize.is(1),
        Size.is(0),
        Amplification.is(50),
        Extension.is(7),
        Code.is(code),
        reason,
    ])
}

pub fn octets(rt: &impl Print) -> io::Result<()> {
    // 9 bits before the block and 24 in it, 33 in 5 octets.
    shown(rt, "A", plain(), 1)?;
    // 33 bits, G1's address 26, G2's recurrence bit and address 27, G5's DTG and no extension 34, the
    // requests 3: 123 in 16 octets.
    shown(rt, "B", octets_b(), 1)?;
    // 33 bits, addresses 26 and 27, G8's DTG 33, no extension 1, R/C 3, no reasons and no amplification 3:
    // 126 in 16 octets.
    shown(rt, "C", octets_c(), 0)
}

pub fn every_field(rt: &impl Print) -> io::Result<()> {
    // Version 4, compression 3, G1 1 + 2 + 4 * 7 = 31, G2 1 + 2 * (1 + 2 + 64 * 7) = 903, G3 1 + 3 * 27 = 82,
    // header size 17: 1040. Each block has recurrence 1, UMF 4, standard version 5, G4 1 + 4 + 7 + 8 = 20, file
    // name 1 + 6 * 7 = 43, message size 21, codes 8, marking 1 + 32 * 7 = 225, G5 1 + 33 + 13 = 47, G6 34, G7 4,
    // G8 1, G9 1 + 4 * (1 + 26 + 33 + 13) = 293, G10 1: 707. 1040 + 2 * 707 = 2454 in 307 octets.
    shown(rt, "every field but G8", every(), 7)?;
    // Version 4, compression 1, G1 27, G2 28, G3 1, header size 17: 78. Recurrence 1, UMF 4, standard version, G4
    // and file name 3, message size 21, codes 8, marking 1, G5 to G7 3: 41. G8 1 + 33 + 13 + 3, CANTCO 4, CANTPRO
    // 1, amplification 1 + 50 * 7: 406. G9 and G10 2. 527 in 66 octets.
    shown(rt, "a receipt with CANTCO", reply(6, Cantco.is(5)), 0)?;
    // CANTCO 1 and CANTPRO 7, 3 bits more: 530 in 67 octets.
    shown(rt, "a receipt with CANTPRO", reply(2, Cantpro.is(33)), 0)
}
