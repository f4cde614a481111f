// Tables that no call makes: one change in a table that calls have made. Its kind is the number that a line tells.
ghost use Rattle.std.specs.Prelude.{◌≡◌, length};
ghost use Rattle.table_octets.specs.Table.{size_of_key, size_of_recipient, size_of_row, size_of_table};

use crate::put::date;
use cells::{clear, move_up, store_word};
use header::Date;
use record_octets::{in_address, in_dtg, in_optional_number, in_stamp, in_time};
use table_octets::{TABLE, in_key, in_recipient, in_row, in_table};

// Kinds 11 to 17: a recipient with a code that is wrong in a row that asks for machine and reply, or with an illegal
// address.
fn wrong_recipient(x: &mut [u8], kind: u32)
    requires { length x.old ≡ size_of_recipient }
{
    match kind {
        11 => store_word(&mut x[in_recipient::MACHINE..in_recipient::ACKNOWLEDGE], 3),
        12 => store_word(&mut x[in_recipient::MACHINE..in_recipient::ACKNOWLEDGE], 2),
        13 => store_word(&mut x[in_recipient::ACKNOWLEDGE..in_recipient::REPLY], 3),
        14 => store_word(&mut x[in_recipient::REPLY..in_recipient::END], 1),
        15 => store_word(&mut x[in_recipient::MACHINE..in_recipient::ACKNOWLEDGE], 7),
        16 => clear(&mut x[in_recipient::ADDRESS..in_recipient::MACHINE]),
        _ => {
            let urn = &mut x[in_address::URN..in_address::NAME];
            store_word(
                &mut urn[in_optional_number::VALUE..in_optional_number::END],
                16777216,
            );
        }
    }
}

// A key whose minute is 60.
fn wrong_minute(key: &mut [u8])
    requires { length key.old ≡ size_of_key }
{
    let stamp = &mut key[in_key::STAMP..in_key::END];
    let dtg = &mut stamp[in_stamp::DTG..in_stamp::EXTENSION];
    let time = &mut dtg[in_dtg::TIME..in_dtg::END];
    store_word(&mut time[in_time::MINUTE..in_time::SECOND], 60);
}

// A key with the date that a number's last six digits tell, two each for year, month and day.
fn other_date(key: &mut [u8], digits: u32)
    requires { length key.old ≡ size_of_key }
{
    let day = Date {
        year: digits / 10000,
        month: digits / 100 % 100,
        day: digits % 100,
    };
    let stamp = &mut key[in_key::STAMP..in_key::END];
    let dtg = &mut stamp[in_stamp::DTG..in_stamp::EXTENSION];
    date(&mut dtg[in_dtg::DATE..in_dtg::TIME], day);
}

// Kinds 4 to 10: a row whose key, requests, count or order of recipients is wrong. A wrong address stands second,
// where it keeps the order. A kind over 100 is the date of the key, which need not be wrong.
fn wrong_row(r: &mut [u8], kind: u32)
    requires { length r.old ≡ size_of_row }
{
    let second = in_row::RECIPIENTS + in_row::ENTRY;
    match kind {
        4 => wrong_minute(&mut r[in_row::KEY..in_row::ASKED]),
        5 => clear(&mut r[in_row::KEY..in_row::ASKED]),
        6 => clear(&mut r[in_row::ASKED..in_row::UNUSED]),
        7 => store_word(&mut r[in_row::COUNT..in_row::END], 0),
        8 => store_word(&mut r[in_row::COUNT..in_row::END], 17),
        9 => move_up(r, in_row::RECIPIENTS, second, in_row::ENTRY),
        10 => r[in_row::RECIPIENTS..second + in_row::ENTRY].rotate_left(in_row::ENTRY),
        16 | 17 => wrong_recipient(&mut r[second..second + in_row::ENTRY], kind),
        101..=999999 => other_date(&mut r[in_row::KEY..in_row::ASKED], kind),
        _ => wrong_recipient(&mut r[in_row::RECIPIENTS..second], kind),
    }
}

// Kind 1 is a count over 32; kinds 2 and 3 are a row twice and two rows in the wrong order; kind 18 is a wrong
// row behind the last, and no fault.
fn wrong_table(t: &mut [u8], kind: u32)
    requires { length t.old ≡ size_of_table }
{
    let last = 31 * in_table::ENTRY;
    match kind {
        1 => store_word(&mut t[in_table::COUNT..in_table::END], 33),
        2 => move_up(t, 0, in_table::ENTRY, in_table::ENTRY),
        3 => t[0..2 * in_table::ENTRY].rotate_left(in_table::ENTRY),
        18 => {
            move_up(t, 0, in_table::ENTRY, last);
            wrong_row(&mut t[last..in_table::COUNT], 8);
        }
        _ => wrong_row(&mut t[0..in_table::ENTRY], kind),
    }
}

pub fn wrong(t: &mut [u8; TABLE], kind: u32) {
    wrong_table(t, kind);
}
