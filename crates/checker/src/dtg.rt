// A date-time group, alone and with its extension.
ghost use Rattle.std.specs.Prelude.{◌≡◌, length};
ghost use Rattle.cells.specs.Cells.{word_in};
ghost use Rattle.codec.specs.Refusals.{check_no};
ghost use Rattle.header.specs.Table.{day_in, date, time, stamp};
ghost use Rattle.record_octets.specs.Record.{size_of_date, date_in, size_of_time, time_in, size_of_stamp, stamp_in};

use crate::part::Check;
use cells::load_word;
use codec::Fault;
use header::calendar::day_in;
use header::layout::{EXTENSION, HOUR, MINUTE, MONTH, SECOND, YEAR};
use header::{Dtg, Stamp};
use leaves::numbers::{check_optional, check_word};
use number::check_number;
use record_octets::{in_date, in_dtg, in_stamp, in_time};

// The day, one that its month has.
fn check_day(year: u32, month: u32, x: &[u8]) -> Result<(), Fault>
    requires { length x.now ≡ 4 }
    ensures { check_no result ≡ (day_in year month).check (word_in x.now) }
{
    let days = day_in(year, month);
    check_word(days, Fault::Code, x)
}

pub fn check_date(x: &[u8]) -> Result<(), Fault>
    requires { length x.now ≡ size_of_date }
    ensures { check_no result ≡ date.check (date_in x.now) }
{
    let year = load_word(&x[in_date::YEAR..in_date::MONTH]);
    let month = load_word(&x[in_date::MONTH..in_date::DAY]);
    check_number(YEAR, Fault::Code, year)?;
    check_number(MONTH, Fault::Code, month)?;
    check_day(year, month, &x[in_date::DAY..in_date::END])
}

pub fn check_time(x: &[u8]) -> Result<(), Fault>
    requires { length x.now ≡ size_of_time }
    ensures { check_no result ≡ time.check (time_in x.now) }
{
    check_word(HOUR, Fault::Code, &x[in_time::HOUR..in_time::MINUTE])?;
    check_word(MINUTE, Fault::Code, &x[in_time::MINUTE..in_time::SECOND])?;
    check_word(SECOND, Fault::Code, &x[in_time::SECOND..in_time::END])
}

impl Check for Dtg {
    fn check(x: &[u8]) -> Result<(), Fault> {
        let date = check_date(&x[in_dtg::DATE..in_dtg::TIME]);
        let time = check_time(&x[in_dtg::TIME..in_dtg::END]);
        date.and(time)
    }
}

impl Check for Stamp {
    fn check(x: &[u8]) -> Result<(), Fault> {
        Dtg::check(&x[in_stamp::DTG..in_stamp::EXTENSION])?;
        check_optional(EXTENSION, &x[in_stamp::EXTENSION..in_stamp::END])
    }
}

pub fn check_stamp(x: &[u8]) -> Result<(), Fault>
    requires { length x.now ≡ size_of_stamp }
    ensures { check_no result ≡ stamp.check (stamp_in x.now) }
{
    Stamp::check(x)
}
