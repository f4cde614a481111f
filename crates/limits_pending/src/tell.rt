// What a call answered, printed.
use codec::Refusal;
use std::io;

// The place of a refusal is 0; another one would show. The block is told where the refusal is about one.
pub fn print_refused<F: Into<u32> + Copy>(rt: &impl Print, refusal: Refusal<F>) -> io::Result<()> {
    let number: u32 = refusal.fault.into();
    let (place, block) = (refusal.place.0, refusal.block.0);
    print!(rt; " refused {number}")?;
    if place != 0 {
        print!(rt; " at {place}")?;
    }
    if block != 0 {
        print!(rt; " in block {block}")?;
    }
    Ok(())
}
