// One case: a record is written into octets that hold a pattern, and a line tells what came of it. A line is
// a name, then `written` with the header's octets or `refused` with the number and, where the refusal is about
// one, the block; whether the rest of the output, or all of it, is as it was; and what the reader makes of the
// header that was written.
use bits::OctetSize;
use codec::{Fault, Refusal};
use record_octets::RECORD;
use std::io;

// The octets of every output. A datagram of 65,507 fits.
pub const WHOLE: usize = 65600;

// What octet i of the output holds before a call: never 0 or 255, and not the same as its neighbours.
fn pattern(i: usize) -> u8 {
    ((i % 251 * 7 + 3) % 251 + 1) as u8
}

fn fill(out: &mut [u8]) {
    for (i, octet) in out.iter_mut().enumerate() {
        *octet = pattern(i);
    }
}

// Whether every octet from the n-th on is as `fill` left it. By places: this is most of the program's time, and `skip` and `all` take
// twice as long over it.
fn kept(out: &[u8], n: usize) -> bool {
    for i in n..out.len() {
        if out[i] != pattern(i) {
            return false;
        }
    }
    true
}

fn print_kept(rt: &impl Print, out: &[u8], n: usize) -> io::Result<()> {
    let what = if kept(out, n) { "kept" } else { "CHANGED" };
    print!(rt; " {what}")
}

// The writer's refusals and the check's have place 0; another one would show. The block is told where the refusal is
// about one.
fn print_refused(rt: &impl Print, refusal: Refusal<Fault>) -> io::Result<()> {
    let number = u32::from(refusal.fault);
    let (place, block) = (refusal.place.0, refusal.block.0);
    print!(rt; " refused {number}")?;
    if place != 0 {
        print!(rt; " at {place}")?;
    }
    if block != 0 {
        print!(rt; " in block {block}")?;
    }
    Ok(())
}

// The octets of the output that lie behind the header serve as its user data.
fn read_back(rt: &impl Print, out: &[u8], size: usize, data: usize) -> io::Result<()> {
    let Some(datagram) = out.get(..size.saturating_add(data)) else {
        return Ok(());
    };
    let mut h = [0u8; RECORD];
    print!(rt; ", read back")?;
    match reader::read(datagram, &mut h) {
        Ok(length) => print!(rt; " {}", length.0),
        Err(refusal) => print_refused(rt, refusal),
    }
}

fn print_octets(rt: &impl Print, octets: &[u8]) -> io::Result<()> {
    print!(rt; ":")?;
    for octet in octets {
        print!(rt; " {octet:02X}")?;
    }
    Ok(())
}

fn print_written(rt: &impl Print, out: &[u8], size: usize, data: usize) -> io::Result<()> {
    print!(rt; ": written {size}, rest")?;
    print_kept(rt, out, size)?;
    read_back(rt, out, size, data)
}

// A line behind its name and up to its end, with the header's octets if they are to be shown. The writer is lent only
// the first `room` octets.
fn print_writing(
    rt: &impl Print,
    h: &[u8; RECORD],
    data: usize,
    room: usize,
    hex: bool,
) -> io::Result<()> {
    let mut out = [0u8; WHOLE];
    fill(&mut out);
    match writer::write(h, OctetSize(data), &mut out[..room.min(WHOLE)]) {
        Ok(size) => {
            print_written(rt, &out, size.0, data)?;
            match out.get(..size.0) {
                Some(octets) if hex => print_octets(rt, octets),
                _ => Ok(()),
            }
        }
        Err(refusal) => {
            print!(rt; ":")?;
            print_refused(rt, refusal)?;
            print!(rt; ", output")?;
            print_kept(rt, &out, 0)
        }
    }
}

pub fn line(
    rt: &impl Print,
    h: &[u8; RECORD],
    data: usize,
    room: usize,
    hex: bool,
) -> io::Result<()> {
    print_writing(rt, h, data, room, hex)?;
    println!(rt)
}

// What the check says of a record, then what the writer does, without the end of the line.
pub fn checked(rt: &impl Print, h: &[u8; RECORD], data: usize) -> io::Result<()> {
    match writer::check(h, OctetSize(data)) {
        Ok(size) => print!(rt; " checked {}", size.0)?,
        Err(refusal) => print_refused(rt, refusal)?,
    }
    print_writing(rt, h, data, WHOLE, false)
}
