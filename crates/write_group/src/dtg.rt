// A date-time group, alone and with its extension.
ghost use Rattle.codec.specs.Writes.{Room, Writes};
ghost use Rattle.header.specs.Table.{date, time};
ghost use Rattle.record_octets.specs.Record.{size_of_date, date_in, size_of_time, time_in};
ghost use Rattle.std.specs.Prelude.{length, ◌≡◌};

use crate::part::Write;
use bits::BitPlace;
use header::layout::{DAY, EXTENSION, HOUR, MINUTE, MONTH, SECOND, YEAR};
use header::{Dtg, Stamp};
use leaves::numbers::{write_optional, write_word};
use record_octets::{in_date, in_dtg, in_stamp, in_time};

pub fn write_date(out: &mut [u8], at: BitPlace, x: &[u8]) -> BitPlace
    requires { Room out.old at.0 (date.size (date_in x.now)) × (length x.now ≡ size_of_date) }
    ensures { Writes date (date_in x.now) out.old out.new at.0 result.0 }
{
    let at = write_word(out, at, YEAR, &x[in_date::YEAR..in_date::MONTH]);
    let at = write_word(out, at, MONTH, &x[in_date::MONTH..in_date::DAY]);
    write_word(out, at, DAY, &x[in_date::DAY..in_date::END])
}

pub fn write_time(out: &mut [u8], at: BitPlace, x: &[u8]) -> BitPlace
    requires { Room out.old at.0 (time.size (time_in x.now)) × (length x.now ≡ size_of_time) }
    ensures { Writes time (time_in x.now) out.old out.new at.0 result.0 }
{
    let at = write_word(out, at, HOUR, &x[in_time::HOUR..in_time::MINUTE]);
    let at = write_word(out, at, MINUTE, &x[in_time::MINUTE..in_time::SECOND]);
    write_word(out, at, SECOND, &x[in_time::SECOND..in_time::END])
}

impl Write for Dtg {
    fn write(out: &mut [u8], at: BitPlace, x: &[u8]) -> BitPlace {
        let at = write_date(out, at, &x[in_dtg::DATE..in_dtg::TIME]);
        write_time(out, at, &x[in_dtg::TIME..in_dtg::END])
    }
}

impl Write for Stamp {
    fn write(out: &mut [u8], at: BitPlace, x: &[u8]) -> BitPlace {
        let at = Dtg::write(out, at, &x[in_stamp::DTG..in_stamp::EXTENSION]);
        write_optional(out, at, EXTENSION, &x[in_stamp::EXTENSION..in_stamp::END])
    }
}
