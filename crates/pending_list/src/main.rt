// Reads standard input, a datagram in hexadecimal on each line, plays each to the table of pending
// messages, and prints the table's listing.
#![tactic(auto)]

ghost use Rattle.std.specs.Prelude.{◌≤◌};

use std::io;
use std::io::{Read, Write};
use table_octets::TABLE;

// How many characters of a line are held: of a longer line the first 16,385, too many for a datagram, so
// such a line is skipped.
const HELD: usize = 16385;

// The line that is being read, as far as it was.
#[derive(Drop)]
struct Line {
    characters: [u8; HELD],
    held: usize,
    ghost within: { held ≤ 16385 },
}

impl Line {
    // One more character.
    fn hold(&mut self, c: u8) {
        if self.held < HELD {
            self.characters[self.held] = c;
            self.held += 1;
        }
    }

    // The end of the line: its datagram is played, and the next line begins.
    fn end(&mut self, t: &mut [u8; TABLE]) {
        let mut out = [0u8; 8192];
        let read = hexadecimal::line_octets(&self.characters[..self.held], &mut out);
        self.held = 0;
        if let Some(size) = read {
            if let Some(datagram) = out.get(..size.0) {
                playing::play(t, datagram);
            }
        }
    }
}

// A chunk of the input.
fn take(t: &mut [u8; TABLE], line: &mut Line, chunk: &[u8]) {
    for &c in chunk {
        if c == b'\n' {
            line.end(t);
        } else {
            line.hold(c);
        }
    }
}

// All of the input; a last line may lack its line feed. A proved loop has to end, and nothing says that
// the input does, so the turns are counted up to a number that no run reaches.
fn take_all(rt: &impl Input, t: &mut [u8; TABLE]) -> io::Result<()> {
    let mut line = Line {
        characters: [0; HELD],
        held: 0,
    };
    let mut chunk = [0u8; 4096];
    let mut input = rt.reader();
    for _ in 0..u64::MAX {
        let n = input.read(&mut chunk)?;
        if n == 0 {
            break;
        }
        take(t, &mut line, &chunk[..n]);
    }
    line.end(t);
    Ok(())
}

// A row of the listing. A row has at most 4,096 octets.
fn print_row(rt: &impl Print, t: &[u8; TABLE], number: u32) -> io::Result<()> {
    let mut out = [0u8; 4096];
    if let Ok(size) = listing::list_row(t, number, &mut out) {
        if let Some(row) = out.get(..size.0) {
            io::writer(rt).write_all(row)?;
        }
    }
    Ok(())
}

// Row 0 and every row that a table can have; behind the last row nothing is listed.
fn print_rows(rt: &impl Print, t: &[u8; TABLE]) -> io::Result<()> {
    for i in 0..33 {
        print_row(rt, t, i)?;
    }
    Ok(())
}

fn main(rt: HostRuntime) -> io::Result<()> {
    let mut t = [0u8; TABLE];
    pending::empty(&mut t);
    take_all(&rt, &mut t)?;
    print_rows(&rt, &t)
}
