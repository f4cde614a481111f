// The recipients of a new row, and the new row itself, made where they lie. Every octet is determined: what is not used is 0.
#![tactic(auto)]

ghost use Rattle.std.specs.Prelude.{◌≡◌, true, List, ◌++◌, map, ◌+◌, ◌<◌, ◌≤◌, length, take};
ghost use Rattle.std.proofs.Math.Option.{some};
ghost use Rattle.header.specs.Table.{addresses};
ghost use Rattle.cells.specs.Cells.{zeros, word_octets, inserted_at, many, many_octets, Each};
ghost use Rattle.record_octets.specs.Record.{size_of_address, address_in, size_of_addresses, addresses_in, size_of_requests, requests_octets};
ghost use Rattle.calls.specs.Keyed.{put};
ghost use Rattle.order.specs.Values.{Address, address_of, by_address};
ghost use Rattle.order.specs.Requests.{Mark, blank};
ghost use Rattle.table.specs.Search.{Stopped, index_of, is_held};
ghost use Rattle.table_octets.specs.Table.{size_of_key, size_of_recipient, recipient_in, recipient_octets, size_of_row, size_of_row_recipients};
ghost use Rattle.table_octets.specs.Typed.{TypedRecipient};
ghost use Rattle.table_octets.specs.Image.{recipient_image, recipients_image};
ghost use Rattle.recipients.specs.Holds.{Holds, blanks_of};

use cells::{clear, copy, entry, load_word, move_up, store_flag, store_word};
use header::Requests;
use images::put_address;
use order::compare_addresses;
use record_octets::{in_addresses, in_requests};
use std::cmp::Ordering;
use table::Position;
use table_octets::{in_recipient, in_row};

// The first recipient whose address is not before the one that is sought.
pub fn find_recipient(s: &[u8], count: u32, a: &[u8]) -> Position
    requires { (length s.now ≡ size_of_row_recipients) × (count ≤ 16) × (length a.now ≡ size_of_address) }
    ensures { (index_of result ≤ count) × (is_held result ≡ true → index_of result < count) × Stopped by_address (address_of (address_in a.now)) (map (λ x. address_of x.address) (take count (many recipient_in size_of_recipient 16 s.now))) (index_of result) (is_held result) }
{
    let n = count as usize;
    for i in 0..n {
        let x = entry(s, i, in_recipient::END);
        match compare_addresses(a, &x[in_recipient::ADDRESS..in_recipient::MACHINE]) {
            Ordering::Less => return Err(i),
            Ordering::Equal => return Ok(i),
            Ordering::Greater => {}
        }
    }
    Err(n)
}

// A recipient without codes.
fn put_blank(x: &mut [u8], a: &[u8])
    requires { (length x.old ≡ size_of_recipient) × (length a.now ≡ size_of_address) }
    ensures { (x.new ≡ recipient_octets (recipient_image (address_of (address_in a.now), blank))) × TypedRecipient (recipient_image (address_of (address_in a.now), blank)) }
{
    put_address(&mut x[in_recipient::ADDRESS..in_recipient::MACHINE], a);
    clear(&mut x[in_recipient::MACHINE..in_recipient::END]);
}

// One recipient more behind `at` of the n.
fn insert_blank(s: &mut [u8], n: usize, at: usize, a: &[u8])
    requires { (length s.old ≡ size_of_row_recipients) × (length a.now ≡ size_of_address) × (at ≤ n) × (n < 16) }
    ensures { (s.new ≡ inserted_at size_of_recipient n at (recipient_octets (recipient_image (address_of (address_in a.now), blank))) s.old) × TypedRecipient (recipient_image (address_of (address_in a.now), blank)) }
{
    let start = at * in_recipient::END;
    let end = start + in_recipient::END;
    move_up(s, start, n * in_recipient::END, in_recipient::END);
    put_blank(&mut s[start..end], a);
}

// One recipient more, in address order; one that stands there already has no codes either, and stays. The new count.
fn put_recipient(s: &mut [u8], count: u32, a: &[u8]) -> u32
    requires { (length s.old ≡ size_of_row_recipients) × (length a.now ≡ size_of_address) × (count < 16) }
    ensures { (length s.new ≡ size_of_row_recipients) × (result ≤ count + 1) × ((l : List (Address × Mark)) → Holds l count s.old → Holds (put by_address (address_of (address_in a.now)) (some blank) l) result s.new) }
{
    match find_recipient(s, count, a) {
        Ok(_) => count,
        Err(at) => {
            insert_blank(s, count as usize, at, a);
            count + 1
        }
    }
}

// The recipients of a legal list, put in from the last to the first, as the rows' theory sorts. How many there are: an address that the
// list has twice counts once.
fn fill(s: &mut [u8], to: &[u8]) -> u32
    requires { (length s.old ≡ size_of_row_recipients) × (length to.now ≡ size_of_addresses) × ((addresses 15).check (addresses_in to.now) ≡ 0) }
    ensures { (result ≤ (addresses_in to.now).count) × Holds (blanks_of (addresses_in to.now)) result s.new }
{
    clear(s);
    let list = &to[in_addresses::LIST..in_addresses::COUNT];
    let count = load_word(&to[in_addresses::COUNT..in_addresses::END]);
    let mut n: u32 = 0;
    for i in (0..count as usize).rev() {
        let a = entry(list, i, in_addresses::ENTRY);
        n = put_recipient(s, n, a);
    }
    n
}

fn put_requests(x: &mut [u8], asked: Requests)
    requires { length x.old ≡ size_of_requests }
    ensures { x.new ≡ requests_octets asked }
{
    store_flag(
        &mut x[in_requests::MACHINE..in_requests::ACKNOWLEDGE],
        asked.machine,
    );
    store_flag(
        &mut x[in_requests::ACKNOWLEDGE..in_requests::REPLY],
        asked.acknowledge,
    );
    store_flag(&mut x[in_requests::REPLY..in_requests::END], asked.reply);
}

// A new row, from the octets of its key and a legal list of recipients: in address order, each once, without codes.
pub fn new_row(r: &mut [u8], key: &[u8], asked: Requests, to: &[u8])
    requires { (length r.old ≡ size_of_row) × (length to.now ≡ size_of_addresses) × ((addresses 15).check (addresses_in to.now) ≡ 0) × (length key.now ≡ size_of_key) }
    ensures { (r.new ≡ key.now ++ requests_octets asked ++ zeros 1 ++ many_octets recipient_octets (recipients_image (blanks_of (addresses_in to.now))) ++ word_octets (length (blanks_of (addresses_in to.now)))) × (length (blanks_of (addresses_in to.now)) ≤ (addresses_in to.now).count) × Each TypedRecipient (map recipient_image (blanks_of (addresses_in to.now))) }
{
    copy(&mut r[in_row::KEY..in_row::ASKED], 0, key, 0, in_row::ASKED);
    put_requests(&mut r[in_row::ASKED..in_row::UNUSED], asked);
    clear(&mut r[in_row::UNUSED..in_row::RECIPIENTS]);
    let n = fill(&mut r[in_row::RECIPIENTS..in_row::COUNT], to);
    store_word(&mut r[in_row::COUNT..in_row::END], n);
}
