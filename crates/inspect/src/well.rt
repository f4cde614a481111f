// What each row of a table has to pass where it lies in lent octets, and its neighbours: legal, in order, with fitting codes.
ghost use Rattle.std.specs.Prelude.{◌≡◌, true, false, ◌&&◌, ◌||◌, map, ◌≤◌, eqb, length, take, IfSome, MatchOption};
ghost use Rattle.codec.specs.Refusals.{check_no};
ghost use Rattle.header.specs.Rules.{all};
ghost use Rattle.cells.specs.Cells.{many};
ghost use Rattle.calls.specs.Order.{choose};
ghost use Rattle.order.specs.Requests.{answered_by};
ghost use Rattle.order.specs.Values.{address_of, key_of, by_address, by_key};
ghost use Rattle.table.specs.WellFormed.{fits, unanswered, increasing, recipient_fine, row_fine};
ghost use Rattle.table_octets.specs.Table.{size_of_recipient, recipient_in, size_of_row_recipients, size_of_row, row_in};

use crate::keys::{check_key, compare_keys};
use cells::{entry, load_word};
use checker::address::check_address;
use codec::Fault;
use header::Requests;
use leaves::requests::load_requests;
use order::compare_addresses;
use table::codes::{answers_acknowledge, answers_machine, answers_reply, code_fits};
use table_octets::{in_recipient, in_row};

// The code at each request of a recipient; 0 where there is none.
#[derive(Clone, Copy)]
pub struct RecipientCodes {
    pub machine: u32,
    pub acknowledge: u32,
    pub reply: u32,
}

pub fn load_codes(x: &[u8]) -> RecipientCodes
    requires { length x.now ≡ size_of_recipient }
    ensures { (result.machine ≡ (recipient_in x.now).machine) × (result.acknowledge ≡ (recipient_in x.now).acknowledge) × (result.reply ≡ (recipient_in x.now).reply) }
{
    let machine = load_word(&x[in_recipient::MACHINE..in_recipient::ACKNOWLEDGE]);
    let acknowledge = load_word(&x[in_recipient::ACKNOWLEDGE..in_recipient::REPLY]);
    let reply = load_word(&x[in_recipient::REPLY..in_recipient::END]);
    RecipientCodes {
        machine,
        acknowledge,
        reply,
    }
}

// Nothing is refused.
fn is_fine(checked: Result<(), Fault>) -> bool
    ensures { result ≡ eqb (check_no checked) 0 }
{
    checked.is_ok()
}

// Each code is at an asked request that it answers.
fn codes_fit(asked: Requests, r: RecipientCodes) -> bool
    ensures { result ≡ fits asked.machine (λ c. (answered_by c).machine) r.machine && fits asked.acknowledge (λ c. (answered_by c).acknowledge) r.acknowledge && fits asked.reply (λ c. (answered_by c).reply) r.reply }
{
    code_fits(asked.machine, answers_machine(r.machine), r.machine)
        && code_fits(
            asked.acknowledge,
            answers_acknowledge(r.acknowledge),
            r.acknowledge,
        )
        && code_fits(asked.reply, answers_reply(r.reply), r.reply)
}

fn any_two(r: RecipientCodes) -> bool
    ensures { result ≡ eqb r.machine 2 || eqb r.acknowledge 2 || eqb r.reply 2 }
{
    r.machine == 2 || r.acknowledge == 2 || r.reply == 2
}

// A request of the recipient is still open.
fn any_open(asked: Requests, r: RecipientCodes) -> bool
    ensures { result ≡ unanswered asked.machine r.machine || unanswered asked.acknowledge r.acknowledge || unanswered asked.reply r.reply }
{
    asked.machine && r.machine == 0
        || asked.acknowledge && r.acknowledge == 0
        || asked.reply && r.reply == 0
}

// 2 settles every request at once: beside it none is open.
pub fn recipient_fine(asked: Requests, x: &[u8]) -> bool
    requires { length x.now ≡ size_of_recipient }
    ensures { result ≡ recipient_fine asked (recipient_in x.now) }
{
    if !is_fine(check_address(&x[in_recipient::ADDRESS..in_recipient::MACHINE])) {
        return false;
    }
    let codes = load_codes(x);
    codes_fit(asked, codes) && !(any_two(codes) && any_open(asked, codes))
}

// The first has none before it; any other comes after the one before.
fn recipient_follows(last: Option<&[u8]>, x: &[u8]) -> bool
    requires { IfSome last (λ y. length y.now ≡ size_of_recipient) × (length x.now ≡ size_of_recipient) }
    ensures { MatchOption last.entry (result ≡ true) (λ y. result ≡ choose (by_address (address_of (recipient_in y.now).address) (address_of (recipient_in x.now).address)) true false false) }
{
    let Some(last) = last else {
        return true;
    };
    let c = compare_addresses(
        &last[in_recipient::ADDRESS..in_recipient::MACHINE],
        &x[in_recipient::ADDRESS..in_recipient::MACHINE],
    );
    c.is_lt()
}

// Each recipient is fine, and they are in order: none twice.
fn recipients_right(asked: Requests, list: &[u8], count: u32) -> bool
    requires { (length list.now ≡ size_of_row_recipients) × (count ≤ 16) }
    ensures { result ≡ all (recipient_fine asked) (take count (many recipient_in size_of_recipient 16 list.now)) && increasing by_address (map (λ x. address_of x.address) (take count (many recipient_in size_of_recipient 16 list.now))) }
{
    let mut last = None;
    for i in 0..count as usize {
        let x = entry(list, i, in_row::ENTRY);
        if !(recipient_fine(asked, x) && recipient_follows(last, x)) {
            return false;
        }
        last = Some(x);
    }
    true
}

fn any_asked(a: Requests) -> bool
    ensures { result ≡ a.machine || a.acknowledge || a.reply }
{
    a.machine || a.acknowledge || a.reply
}

pub fn row_fine(r: &[u8]) -> bool
    requires { length r.now ≡ size_of_row }
    ensures { result ≡ row_fine (row_in r.now) }
{
    if !is_fine(check_key(&r[in_row::KEY..in_row::ASKED])) {
        return false;
    }
    let asked = load_requests(&r[in_row::ASKED..in_row::UNUSED]);
    if !any_asked(asked) {
        return false;
    }
    let count = load_word(&r[in_row::COUNT..in_row::END]);
    1 <= count
        && count <= 16
        && recipients_right(asked, &r[in_row::RECIPIENTS..in_row::COUNT], count)
}

// As with recipients: the first row has none before it.
pub fn row_follows(last: Option<&[u8]>, x: &[u8]) -> bool
    requires { IfSome last (λ y. length y.now ≡ size_of_row) × (length x.now ≡ size_of_row) }
    ensures { MatchOption last.entry (result ≡ true) (λ y. result ≡ choose (by_key (key_of (row_in y.now).key) (key_of (row_in x.now).key)) true false false) }
{
    let Some(last) = last else {
        return true;
    };
    let order = compare_keys(
        &last[in_row::KEY..in_row::ASKED],
        &x[in_row::KEY..in_row::ASKED],
    );
    order.is_lt()
}
