// Records whose flags that are set hold another octet than 1: a flag is set unless it is 0, so each is written, or
// refused, as with 1.
use crate::cases::{case, with_flags};
use crate::plan::Key::*;
use crate::plan::plain;
use crate::worked::{every, octets_b, octets_c, reply};
use std::io;

// Octets A have no flag that is set; the others set every kind of flag between them, but that of a name in G3 or G9.
pub fn written(rt: &impl Print) -> io::Result<()> {
    let cantco = reply(6, Cantco.is(5));
    let cantpro = reply(2, Cantpro.is(33));
    for (name, p, octet, data) in [
        ("A", plain(), 2, 1),
        ("A", plain(), 128, 1),
        ("A", plain(), 255, 1),
        ("B", octets_b(), 2, 1),
        ("B", octets_b(), 128, 1),
        ("B", octets_b(), 255, 1),
        ("C", octets_c(), 255, 0),
        ("every field but G8", every(), 2, 7),
        ("every field but G8", every(), 128, 7),
        ("every field but G8", every(), 255, 7),
        ("a receipt with CANTCO", cantco, 2, 0),
        ("a receipt with CANTPRO", cantpro, 128, 0),
    ] {
        with_flags(rt, name, p, octet, data)?;
    }
    Ok(())
}

// A flag decides which fields are looked at (3, 4), the forms of an address (6) and the rules: (a), (b), (e) and (i),
// which are 41, 42, 45 and 49.
pub fn refused(rt: &impl Print) -> io::Result<()> {
    case(rt, &[Compression.is(2), Flags.is(2)], 1)?;
    case(rt, &[FileName.is(0), Flags.is(128)], 1)?;
    case(rt, &[Urn.is(207), Name.is(3), Flags.is(255)], 1)?;
    case(rt, &[Requests.is(0), Flags.is(2)], 1)?;
    case(rt, &[G6.is(1), Code.is(1), Flags.is(128)], 0)?;
    case(rt, &[Compression.is(0), Code.is(1), Flags.is(255)], 0)?;
    case(rt, &[Urn.is(207), Requests.is(1), Flags.is(2)], 1)?;
    case(rt, &[Urn.is(207), Requests.is(2), Flags.is(128)], 1)?;
    case(rt, &[Urn.is(207), Requests.is(4), Flags.is(255)], 1)
}
