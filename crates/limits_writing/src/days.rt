// The days that a month has: any other is 3. February has 29 where the year divides by four, and year 0 does: it is 2000.
use crate::cases::{case, case_of, shown};
use crate::plan::Key::*;
use crate::plan::{Change, Plan, plain};
use crate::records::record;
use crate::tell::checked;
use std::io;

fn dated(year: u32, month: u32, day: u32) -> Plan {
    plain().with(&[Year.is(year), Month.is(month), Day.is(day)])
}

// A date in each group that has a DTG, all in one line: what the check says of it, and what the writer does. G5:
// 33 + 33 + 1 = 67 bits in 9 octets. G6: 33 + 33 = 66 in 9. G8: 33 + 40 = 73 in 10. G9: 33 + 61 = 94 in 12.
fn date(rt: &impl Print, year: u32, month: u32, day: u32) -> io::Result<()> {
    print!(rt; "{year:02}-{month:02}-{day:02}")?;
    for (group, change, data) in [
        ("G5", G5.is(1), 1),
        ("G6", G6.is(1), 1),
        ("G8", Code.is(1), 0),
        ("G9", References.is(1), 1),
    ] {
        print!(rt; "; {group}")?;
        let p = dated(year, month, day).with(&[change]);
        checked(rt, &record(&p), data)?;
    }
    println!(rt)
}

pub fn february(rt: &impl Print) -> io::Result<()> {
    for year in [0, 1, 2, 3, 4, 96] {
        date(rt, year, 2, 29)?;
    }
    date(rt, 96, 2, 30)?;
    date(rt, 99, 2, 28)?;
    date(rt, 99, 2, 29)?;
    // G5 27; year 0 in 28 to 34; month 2 sets 36; day 29 sets 39, 41, 42 and 43; then 16:27:55 as in B.
    shown(rt, "00-02-29 in G5", dated(0, 2, 29).with(&[G5.is(1)]), 1)
}

// The last days of every month. April, June, September and November have 30 days, February 28 in a year like this.
pub fn months(rt: &impl Print) -> io::Result<()> {
    for month in 1..=12 {
        date(rt, 99, month, 30)?;
        date(rt, 99, month, 31)?;
    }
    Ok(())
}

// 31 June, and two numbers more.
fn june(rt: &impl Print, changes: &[Change], data: usize) -> io::Result<()> {
    print!(rt; "31 June, ")?;
    case_of(rt, dated(96, 6, 31), changes, data)
}

// The fields before a day are judged before it, those behind it and the rules behind it; and no day is looked at where
// there is no group that has it: A's 33 bits in 5 octets.
pub fn order(rt: &impl Print) -> io::Result<()> {
    june(rt, &[G5.is(0), G6.is(0)], 1)?;
    // 2, 4, 5 and 6 before the day.
    june(rt, &[Version.is(3), G5.is(1)], 1)?;
    june(rt, &[Marking.is(0), G5.is(1)], 1)?;
    june(rt, &[G5.is(0), References.is(5)], 1)?;
    june(rt, &[References.is(1), ReferenceUrn.absent()], 1)?;
    // The day before 4, 5, (a) and (b), and in a block behind the first, which has no date, before (f).
    june(rt, &[Code.is(1), Amplification.is(0)], 0)?;
    june(rt, &[G5.is(1), References.is(5)], 1)?;
    june(rt, &[G5.is(1), Requests.is(0)], 1)?;
    june(rt, &[G6.is(1), Code.is(1)], 0)?;
    june(rt, &[Blocks.is(2), NextCode.is(1)], 1)?;
    june(rt, &[Version.is(1), G5.is(1)], 1)?;
    // A year and a month that are out of range, beside it.
    june(rt, &[Year.is(100), G5.is(1)], 1)?;
    case(rt, &[G5.is(1), Month.is(13), Day.is(31)], 1)
}
