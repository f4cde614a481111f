// Small values, put into the octets of a record that are their own. Octets between the cells stay as they were.
ghost use Rattle.std.specs.Prelude.{◌≡◌, ◌≤◌, length};
ghost use Rattle.record_octets.specs.Record.{size_of_address, size_of_date, size_of_dtg, size_of_optional_number, size_of_optional_text, size_of_stamp, size_of_text, size_of_time};

use cells::{store_chars, store_word};
use header::{Address, Date, Dtg, OptionalText, Stamp, Time};
use optional::OptionalNumber;
use record_octets::{
    in_address, in_date, in_dtg, in_optional_number, in_optional_text, in_stamp, in_text, in_time,
};
use text::Text;

// A flag, whatever lies behind it. It is set unless it is 0, so 255 is as good as 1.
pub fn flag(x: &mut [u8], set: bool)
    requires { 1 ≤ length x.old }
{
    x[0] = if set { 255 } else { 0 };
}

pub fn number(x: &mut [u8], n: OptionalNumber)
    requires { length x.old ≡ size_of_optional_number }
{
    flag(
        &mut x[in_optional_number::PRESENT..in_optional_number::VALUE],
        n.present,
    );
    store_word(
        &mut x[in_optional_number::VALUE..in_optional_number::END],
        n.value,
    );
}

fn text(x: &mut [u8], t: Text)
    requires { length x.old ≡ size_of_text }
{
    store_chars(&mut x[in_text::CHARS..in_text::LEN], t.chars);
    store_word(&mut x[in_text::LEN..in_text::END], t.len);
}

fn optional_text(x: &mut [u8], t: OptionalText)
    requires { length x.old ≡ size_of_optional_text }
{
    flag(
        &mut x[in_optional_text::PRESENT..in_optional_text::TEXT],
        t.present,
    );
    text(
        &mut x[in_optional_text::TEXT..in_optional_text::END],
        t.text,
    );
}

pub fn address(x: &mut [u8], a: Address)
    requires { length x.old ≡ size_of_address }
{
    number(&mut x[in_address::URN..in_address::NAME], a.urn);
    optional_text(&mut x[in_address::NAME..in_address::END], a.name);
}

pub fn date(x: &mut [u8], d: Date)
    requires { length x.old ≡ size_of_date }
{
    store_word(&mut x[in_date::YEAR..in_date::MONTH], d.year);
    store_word(&mut x[in_date::MONTH..in_date::DAY], d.month);
    store_word(&mut x[in_date::DAY..in_date::END], d.day);
}

fn time(x: &mut [u8], t: Time)
    requires { length x.old ≡ size_of_time }
{
    store_word(&mut x[in_time::HOUR..in_time::MINUTE], t.hour);
    store_word(&mut x[in_time::MINUTE..in_time::SECOND], t.minute);
    store_word(&mut x[in_time::SECOND..in_time::END], t.second);
}

fn dtg(x: &mut [u8], d: Dtg)
    requires { length x.old ≡ size_of_dtg }
{
    date(&mut x[in_dtg::DATE..in_dtg::TIME], d.date);
    time(&mut x[in_dtg::TIME..in_dtg::END], d.time);
}

pub fn stamp(x: &mut [u8], s: Stamp)
    requires { length x.old ≡ size_of_stamp }
{
    dtg(&mut x[in_stamp::DTG..in_stamp::EXTENSION], s.dtg);
    number(&mut x[in_stamp::EXTENSION..in_stamp::END], s.extension);
}
