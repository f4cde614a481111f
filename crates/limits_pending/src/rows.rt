// Rows of the listing, written into octets that hold a pattern.
use crate::tell::print_refused;
use std::io;
use std::io::Write;
use table_octets::TABLE;

// The octets of every output. A row may be longer, but none here is.
const WHOLE: usize = 4096;

// What octet i of the output holds before a call: never 0 or 255, and not the same as its neighbours.
fn pattern(i: usize) -> u8 {
    ((i % 251 * 7 + 3) % 251 + 1) as u8
}

fn fill(out: &mut [u8]) {
    for (i, octet) in out.iter_mut().enumerate() {
        *octet = pattern(i);
    }
}

// Whether every octet from the n-th on is as `fill` left it.
fn kept(out: &[u8], n: usize) -> bool {
    let mut octets = out.iter().enumerate().skip(n);
    octets.all(|(i, octet)| *octet == pattern(i))
}

fn print_kept(rt: &impl Print, out: &[u8], n: usize) -> io::Result<()> {
    let what = if kept(out, n) { "kept" } else { "CHANGED" };
    print!(rt; " {what}")
}

// The text of a row; a refusal would show.
fn print_row(rt: &impl Print, t: &[u8; TABLE], number: u32) -> io::Result<()> {
    let mut out = [0u8; WHOLE];
    fill(&mut out);
    match listing::list_row(t, number, &mut out) {
        Ok(size) => match out.get(..size.0) {
            Some(text) => io::writer(rt).write_all(text),
            None => Ok(()),
        },
        Err(refusal) => print_refused(rt, refusal),
    }
}

// The whole listing, with a row past the last that a full table has.
pub fn print_rows(rt: &impl Print, t: &[u8; TABLE]) -> io::Result<()> {
    for number in 0..34 {
        print_row(rt, t, number)?;
    }
    Ok(())
}

// One row in so many octets, which are all that the listing is lent: how many were written, and whether the others
// are as they were.
pub fn print_line(rt: &impl Print, t: &[u8; TABLE], number: u32, room: usize) -> io::Result<()> {
    let mut out = [0u8; WHOLE];
    fill(&mut out);
    match listing::list_row(t, number, &mut out[..room.min(WHOLE)]) {
        Ok(size) => {
            print!(rt; " octets {}, rest", size.0)?;
            print_kept(rt, &out, size.0)
        }
        Err(refusal) => {
            print_refused(rt, refusal)?;
            print!(rt; ", output")?;
            print_kept(rt, &out, 0)
        }
    }
}
