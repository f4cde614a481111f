// The days that a month has: any other is 3 at the day's first bit. February has 29 where the year divides by four, and
// year 0 does: it is 2000.
use crate::draft::Draft;
use crate::headers::{dated, handled, measured};
use crate::tell::{all_with_data, cut, with_data};
use crate::versions;
use std::io;

// A date in G5, named by its numbers: the day stands at 39, and 67 bits have 9 octets.
fn date(rt: &impl Print, year: u32, month: u32, day: u32) -> io::Result<()> {
    let draft = dated(year, month, day, 16, 27, 55);
    with_data(rt, format_args!("{year:02}-{month:02}-{day:02}"), draft, 1)
}

fn february(rt: &impl Print) -> io::Result<()> {
    for year in [0, 1, 2, 3, 4, 96] {
        date(rt, year, 2, 29)?;
    }
    date(rt, 96, 2, 30)?;
    date(rt, 99, 2, 28)?;
    date(rt, 99, 2, 29)
}

// The last days of every month. April, June, September and November have 30 days, February 28 in a year like this.
fn months(rt: &impl Print) -> io::Result<()> {
    for month in 1..=12 {
        date(rt, 99, month, 30)?;
        date(rt, 99, month, 31)?;
    }
    Ok(())
}

// A DTG with a day of June.
fn june(d: Draft, day: u32) -> Draft {
    d.date(96, 6, day).time(16, 27, 55)
}

// A reference with a day of June: recurrence 1, address 26, DTG 33, no extension 1: 61 bits. The day stands
// 1 + 26 + 7 + 4 = 38 bits behind the first of them.
fn reference(d: Draft, recurrence: bool, day: u32) -> Draft {
    june(d.flag(recurrence).urn(3), day).absent(1)
}

// Cases of one day of June, each named by its place.
fn of_june(rt: &impl Print, day: u32, cases: &[(&str, Draft, usize)]) -> io::Result<()> {
    for &(place, draft, data) in cases {
        with_data(rt, format_args!("{day} June in {place}"), draft, data)?;
    }
    Ok(())
}

fn in_groups(rt: &impl Print, day: u32) -> io::Result<()> {
    // G5 27, G6 28, year 29 to 35, month 36 to 39, day 40; the DTG ends at 62, G7 to G10 end at 66: 9 octets.
    let perish = june(handled(2).absent(1).flag(true), day);
    // G5 to G7 27 to 29, G8 30, year 31 to 37, month 38 to 41, day 42; the DTG ends at 64, nine bits more at 73: 10
    // octets.
    let answer = june(handled(2).absent(3).flag(true), day);
    // G9 31, its first entry from 32: day 70. It ends at 93, G10 at 94: 12 octets.
    let references = handled(2).absent(4).flag(true);
    // The fourth entry from 32 + 3 * 61 = 215: day 253. It ends at 276, G10 at 277: 35 octets.
    let two = reference(reference(references, true, 30), true, 30);
    let fourth = reference(reference(two, true, 30), false, day);
    let cases = [
        ("G6", perish.absent(4), 1),
        ("G8", answer.flag(false).number(3, 1).absent(5), 0),
        ("G9", reference(references, false, day).absent(1), 1),
        ("G9's fourth", fourth.absent(1), 1),
        // In version 1 G5's day stands at 38; 66 bits in 9 octets.
        ("version 1", versions::dated(6, day, 27), 1),
    ];
    of_june(rt, day, &cases)
}

// A first block of 44 bits from 25, and a second from 69 whose G5 stands at 69 + 8 + 30 = 107.
fn behind_block(octets: u32) -> Draft {
    let first = measured(octets).opening(true, 2).sized(1).absent(6);
    first.opening(false, 2).sized(1)
}

fn in_block_2(rt: &impl Print, day: u32) -> io::Result<()> {
    // Year 108 to 114, month 115 to 118, day 119; the DTG ends at 141, six bits more at 147: 19 octets.
    let origin = june(behind_block(19).flag(true), day);
    // G9 111, its second entry from 112 + 61 = 173: day 211. It ends at 234, G10 at 235: 30 octets.
    let first = reference(behind_block(30).absent(4).flag(true), true, 30);
    let cases = [
        ("block 2", origin.absent(6), 2),
        (
            "block 2, G9's second",
            reference(first, false, day).absent(1),
            2,
        ),
    ];
    of_june(rt, day, &cases)
}

fn groups(rt: &impl Print) -> io::Result<()> {
    in_groups(rt, 30)?;
    in_groups(rt, 31)?;
    in_block_2(rt, 30)?;
    in_block_2(rt, 31)
}

// The year at 28, the month at 35, the day at 39, then the hour.
fn order(rt: &impl Print) -> io::Result<()> {
    let cases = [
        ("31 June of year 100", dated(100, 6, 31, 16, 27, 55), 1),
        ("29 February of year 101", dated(101, 2, 29, 16, 27, 55), 1),
        ("day 31 of month 13", dated(96, 13, 31, 16, 27, 55), 1),
        ("day 0 of month 0", dated(96, 0, 0, 16, 27, 55), 1),
        ("31 June at hour 24", dated(96, 6, 31, 24, 27, 55), 1),
    ];
    all_with_data(rt, &cases)?;
    // 40 bits of the day's 39 to 43: 1 comes before 3.
    cut(rt, "31 June cut", dated(96, 6, 31, 16, 27, 55), 5)
}

pub fn all(rt: &impl Print) -> io::Result<()> {
    february(rt)?;
    months(rt)?;
    groups(rt)?;
    order(rt)
}
