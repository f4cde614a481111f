// A script, played on a table that is empty at first. Each line is printed, and behind it what came of it.
use crate::records::{data, key, record};
use crate::rows::{print_line, print_rows};
use crate::tell::print_refused;
use crate::words::Line;
use crate::words::Part::*;
use crate::wrong::wrong;
use arguments::PendingFault;
use codec::Refusal;
use std::io;
use table_octets::TABLE;

// The answer. A refusal leaves every octet of the table as it was; another one would show.
fn tell(
    rt: &impl Print,
    answer: Result<(), Refusal<PendingFault>>,
    t: &[u8; TABLE],
    old: &[u8; TABLE],
) -> io::Result<()> {
    match answer {
        Ok(()) => print!(rt; " done"),
        Err(refusal) => {
            print_refused(rt, refusal)?;
            if t != old {
                print!(rt; " CHANGED")?;
            }
            Ok(())
        }
    }
}

fn post(rt: &impl Print, t: &mut [u8; TABLE], line: &Line) -> io::Result<()> {
    let old = *t;
    let answer = pending::post(t, &record(line), line.cell(Number), data(line));
    tell(rt, answer, t, &old)
}

fn receipt(rt: &impl Print, t: &mut [u8; TABLE], line: &Line) -> io::Result<()> {
    let old = *t;
    let answer = pending::receipt(t, &record(line), line.cell(Number), data(line));
    tell(rt, answer, t, &old)
}

fn free(rt: &impl Print, t: &mut [u8; TABLE], line: &Line) -> io::Result<()> {
    let old = *t;
    let answer = pending::release(t, &key(line));
    tell(rt, answer, t, &old)
}

// 33 messages that differ in the second alone.
fn many(rt: &impl Print, t: &mut [u8; TABLE], line: &Line) -> io::Result<()> {
    for second in 0..33 {
        post(rt, t, &line.with(Second, Some(second)))?;
    }
    Ok(())
}

fn show(rt: &impl Print, t: &[u8; TABLE]) -> io::Result<()> {
    println!(rt)?;
    print_rows(rt, t)
}

fn one_row(rt: &impl Print, t: &[u8; TABLE], line: &Line) -> io::Result<()> {
    print_line(rt, t, line.cell(Number), line.cell(Given) as usize)
}

// A copy of the table, made wrong.
fn wrong_copy(t: &[u8; TABLE], line: &Line) -> [u8; TABLE] {
    let mut bad = *t;
    wrong(&mut bad, line.cell(Kind));
    bad
}

// A posting, a release and a listing, each on a copy of the table that was made wrong.
fn try_wrong(rt: &impl Print, t: &[u8; TABLE], line: &Line) -> io::Result<()> {
    post(rt, &mut wrong_copy(t, line), line)?;
    free(rt, &mut wrong_copy(t, line), line)?;
    one_row(rt, &wrong_copy(t, line), line)
}

// A line's first word tells the call: many postings, the whole listing or a line of it among them; Wrong makes the
// table wrong, and Try does so for three calls.
fn act(rt: &impl Print, t: &mut [u8; TABLE], text: &str) -> io::Result<()> {
    let (call, parts) = text.split_once(' ').unwrap_or((text, ""));
    let line = Line::read(parts);
    match call {
        "Post" => post(rt, t, &line),
        "Receipt" => receipt(rt, t, &line),
        "Free" => free(rt, t, &line),
        "Many" => many(rt, t, &line),
        "Show" => show(rt, t),
        "Line" => one_row(rt, t, &line),
        "Try" => try_wrong(rt, t, &line),
        "Wrong" => {
            wrong(t, line.cell(Kind));
            Ok(())
        }
        _ => Ok(()),
    }
}

// The table's octets hold rubbish before it is made empty.
pub fn play(rt: &impl Print, lines: &[&str]) -> io::Result<()> {
    let mut t = [165u8; TABLE];
    pending::empty(&mut t);
    for text in lines {
        print!(rt; "{text}:")?;
        act(rt, &mut t, text)?;
        println!(rt)?;
    }
    Ok(())
}
