// Numbers at their limits. An illegal version is 2, every other illegal number 3; nothing is cut to the width
// of its field, so 17 is no version 1 and 18 no version 2.
use crate::cases::case;
use crate::plan::Key::*;
use std::io;

pub fn fronts(rt: &impl Print) -> io::Result<()> {
    for change in [
        Version.is(0),
        // 33 - 1 = 32 bits in 4 octets: version 1 has no presence bit of the standard version.
        Version.is(1),
        Version.is(3),
        Version.is(15),
        Version.is(17),
        Version.is(18),
        // 33 + 2 = 35 bits in 5 octets.
        Compression.is(0),
        Compression.is(1),
        Compression.is(2),
        Compression.is(4),
    ] {
        case(rt, &[change], 1)?;
    }
    Ok(())
}

pub fn formats(rt: &impl Print) -> io::Result<()> {
    // 33 bits in 5 octets.
    case(rt, &[Umf.is(0)], 1)?;
    case(rt, &[Umf.is(8)], 1)?;
    case(rt, &[Umf.is(9)], 1)?;
    case(rt, &[Umf.is(18)], 1)?;
    // 33 + 4 = 37 bits in 5 octets.
    case(rt, &[Standard.is(15)], 1)?;
    case(rt, &[Standard.is(16)], 1)?;
    // G4: 33 + 4 + 7 + 1 + 7 = 52 bits in 7 octets.
    case(rt, &[Fad.is(15), MessageNumber.is(127), Subtype.is(127)], 1)?;
    case(rt, &[Fad.is(16)], 1)?;
    case(rt, &[Fad.is(0), MessageNumber.is(128)], 1)?;
    case(rt, &[Fad.is(0), Subtype.is(128)], 1)
}

// The four codes are in every block: 33 bits in 5 octets.
pub fn codes(rt: &impl Print) -> io::Result<()> {
    for change in [
        Operation.is(3),
        Operation.is(4),
        Retransmit.is(1),
        Retransmit.is(2),
        Precedence.is(7),
        Precedence.is(8),
        Classification.is(3),
        Classification.is(4),
    ] {
        case(rt, &[change], 1)?;
    }
    Ok(())
}

// G5 with its DTG and no extension: 33 + 33 + 1 = 67 bits in 9 octets.
pub fn dates(rt: &impl Print) -> io::Result<()> {
    for change in [
        Year.is(0),
        Year.is(99),
        Year.is(100),
        Month.is(0),
        Month.is(1),
        Month.is(12),
        Month.is(13),
        Day.is(0),
        Day.is(1),
        Day.is(31),
        Day.is(32),
    ] {
        case(rt, &[G5.is(1), change], 1)?;
    }
    Ok(())
}

pub fn times(rt: &impl Print) -> io::Result<()> {
    for change in [
        Hour.is(0),
        Hour.is(23),
        Hour.is(24),
        Minute.is(0),
        Minute.is(59),
        Minute.is(60),
        Minute.is(75),
        Second.is(59),
        Second.is(60),
        // 67 + 12 = 79 bits in 10 octets.
        Extension.is(4095),
        Extension.is(4096),
    ] {
        case(rt, &[G5.is(1), change], 1)?;
    }
    Ok(())
}

// The DTGs and extensions of G6, G8 and G9.
pub fn other_times(rt: &impl Print) -> io::Result<()> {
    // 33 + 33 = 66 bits in 9 octets.
    case(rt, &[G6.is(1), Minute.is(59)], 1)?;
    case(rt, &[G6.is(1), Minute.is(60)], 1)?;
    case(rt, &[Code.is(1), Minute.is(60)], 0)?;
    case(rt, &[Code.is(1), Extension.is(4096)], 0)?;
    case(rt, &[References.is(1), Minute.is(60)], 1)?;
    case(rt, &[References.is(1), Extension.is(4096)], 1)
}

// G8: DTG 33, no extension 1, R/C 3, three more indicators: 33 + 40 = 73 bits in 10 octets.
pub fn receipts(rt: &impl Print) -> io::Result<()> {
    case(rt, &[Code.is(0)], 0)?;
    case(rt, &[Code.is(1)], 0)?;
    case(rt, &[Code.is(6)], 0)?;
    case(rt, &[Code.is(7)], 0)?;
    case(rt, &[Code.is(9)], 0)?;
    // 73 + 3 = 76 bits in 10 octets.
    case(rt, &[Code.is(6), Cantco.is(7)], 0)?;
    case(rt, &[Code.is(6), Cantco.is(8)], 0)?;
    // 73 + 6 = 79 bits in 10 octets.
    case(rt, &[Code.is(2), Cantpro.is(63)], 0)?;
    case(rt, &[Code.is(2), Cantpro.is(64)], 0)
}
