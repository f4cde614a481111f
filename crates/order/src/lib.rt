// The key of a message, and the orders that the order of keys is made of: texts and addresses are compared where they lie in lent
// octets, stamps by value.
#![tactic(auto)]

ghost use Rattle.std.specs.Prelude.{◌≡◌, length, take};
ghost use Rattle.text.specs.Texts.{chars_of};
ghost use Rattle.calls.specs.Order.{by_number, list, option};
ghost use Rattle.record_octets.specs.Record.{size_of_text, text_in, size_of_optional_text, optional_text_in, size_of_address, address_in};
ghost use Rattle.order.specs.Values.{comparison_of, option_of, dtg_of, moment_of, address_of, by_moment, by_address};

use cells::load_word;
use header::{Address, Dtg, Stamp};
use leaves::numbers::load_optional;
use optional::OptionalNumber;
use record_octets::{in_address, in_optional_text, in_text};
use std::cmp::Ordering;

// What names a message: its originator's address, its DTG and extension.
#[repr(C)]
#[derive(Clone, Copy)]
pub struct Key {
    pub address: Address,
    pub stamp: Stamp,
}

// The first n characters, or all where n is over their number.
fn used(x: &[u8], n: usize) -> &[u8]
    ensures { result.now ≡ take n x.now }
{
    &x[..n.min(x.len())]
}

// Character by character. A count over 64 stands for all 64 cells.
pub fn compare_texts(a: &[u8], b: &[u8]) -> Ordering
    requires { (length a.now ≡ size_of_text) × (length b.now ≡ size_of_text) }
    ensures { comparison_of result ≡ list by_number (chars_of (text_in a.now)) (chars_of (text_in b.now)) }
{
    let n = load_word(&a[in_text::LEN..in_text::END]) as usize;
    let m = load_word(&b[in_text::LEN..in_text::END]) as usize;
    let x = used(&a[in_text::CHARS..in_text::LEN], n);
    let y = used(&b[in_text::CHARS..in_text::LEN], m);
    x.cmp(&y)
}

// The unit names of two addresses.
fn compare_names(a: &[u8], b: &[u8]) -> Ordering
    requires { (length a.now ≡ size_of_optional_text) × (length b.now ≡ size_of_optional_text) }
    ensures { comparison_of result ≡ list by_number (chars_of (optional_text_in a.now).text) (chars_of (optional_text_in b.now).text) }
{
    compare_texts(
        &a[in_optional_text::TEXT..in_optional_text::END],
        &b[in_optional_text::TEXT..in_optional_text::END],
    )
}

// URNs before names.
pub fn compare_addresses(a: &[u8], b: &[u8]) -> Ordering
    requires { (length a.now ≡ size_of_address) × (length b.now ≡ size_of_address) }
    ensures { comparison_of result ≡ by_address (address_of (address_in a.now)) (address_of (address_in b.now)) }
{
    let x = load_optional(&a[in_address::URN..in_address::NAME]);
    let y = load_optional(&b[in_address::URN..in_address::NAME]);
    match (x.present, y.present) {
        (true, true) => x.value.cmp(&y.value),
        (true, false) => Ordering::Less,
        (false, true) => Ordering::Greater,
        (false, false) => compare_names(
            &a[in_address::NAME..in_address::END],
            &b[in_address::NAME..in_address::END],
        ),
    }
}

// The date, then the time, of each the larger unit first.
pub fn compare_dtgs(a: Dtg, b: Dtg) -> Ordering
    ensures { comparison_of result ≡ list by_number (dtg_of a) (dtg_of b) }
{
    let (d, s) = (a.date, a.time);
    let (e, t) = (b.date, b.time);
    let dates = (d.year, d.month, d.day).cmp(&(e.year, e.month, e.day));
    let times = (s.hour, s.minute, s.second).cmp(&(t.hour, t.minute, t.second));
    dates.then(times)
}

// None before some, as in Rust.
fn compare_optionals(a: OptionalNumber, b: OptionalNumber) -> Ordering
    ensures { comparison_of result ≡ option by_number (option_of a) (option_of b) }
{
    let x = a.present.then_some(a.value);
    let y = b.present.then_some(b.value);
    x.cmp(&y)
}

pub fn compare_stamps(a: Stamp, b: Stamp) -> Ordering
    ensures { comparison_of result ≡ by_moment (moment_of a) (moment_of b) }
{
    let dtgs = compare_dtgs(a.dtg, b.dtg);
    let extensions = compare_optionals(a.extension, b.extension);
    dtgs.then(extensions)
}
