// A date-time group, alone and with its extension.
ghost use Rattle.std.specs.Prelude.{◌≡◌, ◌<◌, ◌≤◌, length};
ghost use Rattle.bits.specs.Datagrams.{bits_in};
ghost use Rattle.cells.specs.Cells.{zeros, word_octets};
ghost use Rattle.header.specs.Table.{day_in, date, time, dtg, stamp};
ghost use Rattle.into.specs.Into.{Into};
ghost use Rattle.record_octets.specs.Record.{size_of_date, date_octets, size_of_time, time_octets, size_of_dtg, dtg_octets, size_of_stamp, stamp_octets};
ghost use Rattle.record_octets.specs.Typed.{TypedDate, TypedTime, TypedDtg, TypedStamp};

use bits::{BitPlace, Datagram};
use cells::store_word;
use codec::{Fault, Step};
use header::calendar::day_in;
use header::layout::{EXTENSION, HOUR, MINUTE, MONTH, SECOND, YEAR};
use number::read_number;
use read_leaves::numbers::{read_optional, read_word};
use record_octets::{in_date, in_dtg, in_stamp, in_time};

// The day, one that its month has.
fn read_day(s: Datagram, at: BitPlace, year: u32, month: u32, x: &mut [u8]) -> Step
    requires { length x.old ≡ 4 }
    ensures { Into (day_in year month) word_octets (λ v. v < 4294967296) (bits_in s.entry) at.0 result x.new }
{
    let days = day_in(year, month);
    read_word(s, at, days, Fault::Code, x)
}

pub fn read_date(s: Datagram, at: BitPlace, x: &mut [u8]) -> Step
    requires { (x.old ≡ zeros size_of_date) × (length x.old ≡ size_of_date) }
    ensures { Into date date_octets TypedDate (bits_in s.entry) at.0 result x.new }
{
    let (year, at) = read_number(s, at, YEAR, Fault::Code)?;
    let (month, at) = read_number(s, at, MONTH, Fault::Code)?;
    store_word(&mut x[in_date::YEAR..in_date::MONTH], year);
    store_word(&mut x[in_date::MONTH..in_date::DAY], month);
    read_day(s, at, year, month, &mut x[in_date::DAY..in_date::END])
}

pub fn read_time(s: Datagram, at: BitPlace, x: &mut [u8]) -> Step
    requires { (x.old ≡ zeros size_of_time) × (length x.old ≡ size_of_time) }
    ensures { Into time time_octets TypedTime (bits_in s.entry) at.0 result x.new }
{
    let at = read_word(
        s,
        at,
        HOUR,
        Fault::Code,
        &mut x[in_time::HOUR..in_time::MINUTE],
    )?;
    let at = read_word(
        s,
        at,
        MINUTE,
        Fault::Code,
        &mut x[in_time::MINUTE..in_time::SECOND],
    )?;
    read_word(
        s,
        at,
        SECOND,
        Fault::Code,
        &mut x[in_time::SECOND..in_time::END],
    )
}

pub fn read_dtg(s: Datagram, at: BitPlace, x: &mut [u8]) -> Step
    requires { (x.old ≡ zeros size_of_dtg) × (length x.old ≡ size_of_dtg) }
    ensures { Into dtg dtg_octets TypedDtg (bits_in s.entry) at.0 result x.new }
{
    let at = read_date(s, at, &mut x[in_dtg::DATE..in_dtg::TIME])?;
    read_time(s, at, &mut x[in_dtg::TIME..in_dtg::END])
}

pub fn read_stamp(s: Datagram, at: BitPlace, x: &mut [u8]) -> Step
    requires { (x.old ≡ zeros size_of_stamp) × (length x.old ≡ size_of_stamp) }
    ensures { Into stamp stamp_octets TypedStamp (bits_in s.entry) at.0 result x.new }
{
    let at = read_dtg(s, at, &mut x[in_stamp::DTG..in_stamp::EXTENSION])?;
    read_optional(s, at, EXTENSION, &mut x[in_stamp::EXTENSION..in_stamp::END])
}
