// The parts that stand in a record more than once, each put into the octets that are its own. The cell of a number,
// length or count that is absent holds ABSENT, which is illegal everywhere. Octets between the cells stay as they were.
ghost use Rattle.std.specs.Prelude.{◌≡◌, ◌≤◌, length};
ghost use Rattle.record_octets.specs.Record.{size_of_address, size_of_date, size_of_dtg, size_of_optional_number, size_of_optional_text, size_of_stamp, size_of_text, size_of_time};

use crate::plan::Key::*;
use crate::plan::{ABSENT, Plan};
use cells::{store_chars, store_word};
use record_octets::{
    in_address, in_date, in_dtg, in_optional_number, in_optional_text, in_stamp, in_text, in_time,
};

// No two alike, so that one out of its place would show; the last is the largest that is legal.
pub const CHARACTERS: [u8; 64] =
    *b"?@ABCDEFGHIJKLMNOPQRSTUVWXYZ[\\]^_`abcdefghijklmnopqrstuvwxyz{|}~";

// A flag, whatever lies behind it.
pub fn flag(x: &mut [u8], set: bool, mark: u8)
    requires { 1 ≤ length x.old }
{
    x[0] = if set { mark } else { 0 };
}

pub fn optional(x: &mut [u8], value: Option<u32>, mark: u8)
    requires { length x.old ≡ size_of_optional_number }
{
    flag(
        &mut x[in_optional_number::PRESENT..in_optional_number::VALUE],
        value.is_some(),
        mark,
    );
    store_word(
        &mut x[in_optional_number::VALUE..in_optional_number::END],
        value.unwrap_or(ABSENT),
    );
}

// A length over the maximum is put down all the same.
fn text(x: &mut [u8], chars: [u8; 64], len: u32)
    requires { length x.old ≡ size_of_text }
{
    store_chars(&mut x[in_text::CHARS..in_text::LEN], chars);
    store_word(&mut x[in_text::LEN..in_text::END], len);
}

pub fn optional_text(x: &mut [u8], chars: [u8; 64], len: Option<u32>, mark: u8)
    requires { length x.old ≡ size_of_optional_text }
{
    flag(
        &mut x[in_optional_text::PRESENT..in_optional_text::TEXT],
        len.is_some(),
        mark,
    );
    text(
        &mut x[in_optional_text::TEXT..in_optional_text::END],
        chars,
        len.unwrap_or(ABSENT),
    );
}

pub fn address(x: &mut [u8], urn: Option<u32>, chars: [u8; 64], len: Option<u32>, mark: u8)
    requires { length x.old ≡ size_of_address }
{
    optional(&mut x[in_address::URN..in_address::NAME], urn, mark);
    optional_text(&mut x[in_address::NAME..in_address::END], chars, len, mark);
}

fn date(x: &mut [u8], p: &Plan)
    requires { length x.old ≡ size_of_date }
{
    store_word(&mut x[in_date::YEAR..in_date::MONTH], p.cell(Year));
    store_word(&mut x[in_date::MONTH..in_date::DAY], p.cell(Month));
    store_word(&mut x[in_date::DAY..in_date::END], p.cell(Day));
}

fn time(x: &mut [u8], p: &Plan)
    requires { length x.old ≡ size_of_time }
{
    store_word(&mut x[in_time::HOUR..in_time::MINUTE], p.cell(Hour));
    store_word(&mut x[in_time::MINUTE..in_time::SECOND], p.cell(Minute));
    store_word(&mut x[in_time::SECOND..in_time::END], p.cell(Second));
}

pub fn dtg(x: &mut [u8], p: &Plan)
    requires { length x.old ≡ size_of_dtg }
{
    date(&mut x[in_dtg::DATE..in_dtg::TIME], p);
    time(&mut x[in_dtg::TIME..in_dtg::END], p);
}

pub fn stamp(x: &mut [u8], p: &Plan)
    requires { length x.old ≡ size_of_stamp }
{
    dtg(&mut x[in_stamp::DTG..in_stamp::EXTENSION], p);
    optional(
        &mut x[in_stamp::EXTENSION..in_stamp::END],
        p.get(Extension),
        p.mark(),
    );
}
