// One case: a datagram is read, and a line tells what came of it.
use crate::draft::Draft;
use crate::summary::summarise;
use codec::{Fault, Refusal};
use std::fmt::Display;
use std::io;

// The block is told where the refusal is about one.
fn print_refused(rt: &impl Print, refusal: Refusal<Fault>) -> io::Result<()> {
    let number = u32::from(refusal.fault);
    let (place, block) = (refusal.place.0, refusal.block.0);
    print!(rt; "refused {number} at {place}")?;
    if block != 0 {
        print!(rt; " in block {block}")?;
    }
    println!(rt)
}

// Reads a datagram and prints its line.
pub fn tell(rt: &impl Print, name: impl Display + Drop, datagram: &[u8]) -> io::Result<()> {
    print!(rt; "{name}: ")?;
    match summarise(datagram) {
        Ok(accepted) => println!(rt; "{accepted}"),
        Err(refusal) => print_refused(rt, refusal),
    }
}

// The draft cut, or continued by zeros, to so many octets.
pub fn cut(
    rt: &impl Print,
    name: impl Display + Drop,
    draft: Draft,
    octets: usize,
) -> io::Result<()> {
    match draft.octets.get(..octets) {
        Some(datagram) => tell(rt, name, datagram),
        None => Ok(()),
    }
}

// The draft with its fill bits and so many octets of user data.
pub fn with_data(
    rt: &impl Print,
    name: impl Display + Drop,
    draft: Draft,
    data: usize,
) -> io::Result<()> {
    let header = bits::whole_octets(draft.end).0;
    cut(rt, name, draft, header.saturating_add(data))
}

// The same for one draft after the other.
pub fn all_with_data(rt: &impl Print, cases: &[(&str, Draft, usize)]) -> io::Result<()> {
    for &(name, draft, data) in cases {
        with_data(rt, name, draft, data)?;
    }
    Ok(())
}
