// A date-time group with its extension.
ghost use Rattle.std.specs.Prelude.{◌≡◌, length};
ghost use Rattle.record_octets.specs.Record.{size_of_date, date_in, size_of_time, time_in, size_of_dtg, dtg_in, size_of_stamp, stamp_in};

use crate::numbers::load_optional;
use cells::load_word;
use header::{Date, Dtg, Stamp, Time};
use record_octets::{in_date, in_dtg, in_stamp, in_time};

fn load_date(x: &[u8]) -> Date
    requires { length x.now ≡ size_of_date }
    ensures { result ≡ date_in x.now }
{
    let year = load_word(&x[in_date::YEAR..in_date::MONTH]);
    let month = load_word(&x[in_date::MONTH..in_date::DAY]);
    let day = load_word(&x[in_date::DAY..in_date::END]);
    Date { year, month, day }
}

fn load_time(x: &[u8]) -> Time
    requires { length x.now ≡ size_of_time }
    ensures { result ≡ time_in x.now }
{
    let hour = load_word(&x[in_time::HOUR..in_time::MINUTE]);
    let minute = load_word(&x[in_time::MINUTE..in_time::SECOND]);
    let second = load_word(&x[in_time::SECOND..in_time::END]);
    Time {
        hour,
        minute,
        second,
    }
}

fn load_dtg(x: &[u8]) -> Dtg
    requires { length x.now ≡ size_of_dtg }
    ensures { result ≡ dtg_in x.now }
{
    let date = load_date(&x[in_dtg::DATE..in_dtg::TIME]);
    let time = load_time(&x[in_dtg::TIME..in_dtg::END]);
    Dtg { date, time }
}

pub fn load_stamp(x: &[u8]) -> Stamp
    requires { length x.now ≡ size_of_stamp }
    ensures { result ≡ stamp_in x.now }
{
    let dtg = load_dtg(&x[in_stamp::DTG..in_stamp::EXTENSION]);
    let extension = load_optional(&x[in_stamp::EXTENSION..in_stamp::END]);
    Stamp { dtg, extension }
}
