// A row behind a receipt: the code written to its recipient's cells where they lie.
ghost use Rattle.std.specs.Prelude.{◌≡◌, true, ◌++◌, ◌<◌, length, MatchOption};
ghost use Rattle.std.proofs.Math.Option.{none, some};
ghost use Rattle.codec.specs.Verdict.{plain};
ghost use Rattle.order.specs.Values.{address_of};
ghost use Rattle.order.specs.Requests.{opens, write, ask_of};
ghost use Rattle.order.specs.Requests as requests;
ghost use Rattle.order.specs.Calls.{replied};
ghost use Rattle.cells.specs.Cells.{word_octets};
ghost use Rattle.record_octets.specs.Record.{size_of_address, address_in};
ghost use Rattle.table.specs.Rows.{code_of, mark_of, row_of};
ghost use Rattle.table.specs.WellFormed.{row_fine};
ghost use Rattle.table_octets.specs.Table.{size_of_recipient, recipient_in, size_of_row, row_in};
ghost use Rattle.arguments.specs.Told.{answer_says, answer_place};
ghost use Rattle.transitions.specs.Octets.{marks, has_mark, marked, settled};

use arguments::{Answer, PendingFault, refusal};
use cells::{load_word, store_word};
use header::Requests;
use inspect::well::{RecipientCodes, load_codes};
use leaves::requests::load_requests;
use recipients::find_recipient;
use table::codes::{answers_acknowledge, answers_machine, answers_reply};
use table_octets::{in_recipient, in_row};

// Whether a request is asked, answered by the code and still without one.
fn is_open(asked: bool, answers: bool, old: u32) -> bool
    ensures { result ≡ opens asked answers (code_of old) }
{
    asked && answers && old == 0
}

// What stands at a request afterwards: a written code stays.
fn code_after(opened: bool, code: u32, old: u32) -> u32
    requires { 0 < code }
    ensures { code_of result ≡ write opened code (code_of old) }
{
    if opened {
        return code;
    }
    old
}

// A recipient's codes behind a receipt; none where no request was open to the one that came.
fn codes_after(asked: Requests, code: u32, old: RecipientCodes) -> Option<RecipientCodes>
    requires { 0 < code }
    ensures { MatchOption result (requests.settle (ask_of asked) code (marks old.machine old.acknowledge old.reply) ≡ none) (λ c. requests.settle (ask_of asked) code (marks old.machine old.acknowledge old.reply) ≡ some (marks c.machine c.acknowledge c.reply)) }
{
    let machine = is_open(asked.machine, answers_machine(code), old.machine);
    let acknowledge = is_open(
        asked.acknowledge,
        answers_acknowledge(code),
        old.acknowledge,
    );
    let reply = is_open(asked.reply, answers_reply(code), old.reply);
    if !(machine || acknowledge || reply) {
        return None;
    }
    Some(RecipientCodes {
        machine: code_after(machine, code, old.machine),
        acknowledge: code_after(acknowledge, code, old.acknowledge),
        reply: code_after(reply, code, old.reply),
    })
}

// The three cells, one behind the other.
fn store_codes(x: &mut [u8], c: RecipientCodes)
    requires { length x.old ≡ 12 }
    ensures { x.new ≡ word_octets c.machine ++ word_octets c.acknowledge ++ word_octets c.reply }
{
    store_word(&mut x[0..4], c.machine);
    store_word(&mut x[4..8], c.acknowledge);
    store_word(&mut x[8..12], c.reply);
}

// A recipient behind a receipt: whether there was an open request; if not, every octet stays.
fn settle(asked: Requests, code: u32, x: &mut [u8]) -> bool
    requires { (0 < code) × (length x.old ≡ size_of_recipient) }
    ensures { (result ≡ has_mark (requests.settle (ask_of asked) code (mark_of (recipient_in x.old)))) × (x.new ≡ marked (requests.settle (ask_of asked) code (mark_of (recipient_in x.old))) x.old) }
{
    let old = load_codes(x);
    let Some(codes) = codes_after(asked, code, old) else {
        return false;
    };
    store_codes(&mut x[in_recipient::MACHINE..in_recipient::END], codes);
    true
}

// A row that is fine, with the code written at the answerer to each open request that it answers; a
// refusal leaves every octet as it was.
pub fn settled_row(r: &mut [u8], from: &[u8], code: u32) -> Answer
    requires { (length r.old ≡ size_of_row) × (length from.now ≡ size_of_address) × (row_fine (row_in r.old) ≡ true) × (0 < code) }
    ensures { (answer_says result ≡ plain (replied (address_of (address_in from.now)) code (row_of (row_in r.old)).1).0) × (answer_place result ≡ 0) × (r.new ≡ settled (address_of (address_in from.now), code) (row_of (row_in r.old)).1 (replied (address_of (address_in from.now)) code (row_of (row_in r.old)).1).1 r.old) }
{
    let count = load_word(&r[in_row::COUNT..in_row::END]);
    let place = find_recipient(&r[in_row::RECIPIENTS..in_row::COUNT], count, from);
    let Ok(at) = place else {
        return refusal(PendingFault::NotARecipient);
    };
    let asked = load_requests(&r[in_row::ASKED..in_row::UNUSED]);
    let start = in_row::RECIPIENTS + at * in_row::ENTRY;
    let end = start + in_row::ENTRY;
    if !settle(asked, code, &mut r[start..end]) {
        return refusal(PendingFault::NothingOpen);
    }
    Ok(())
}
