// Posting, receipt and release on the table of pending messages, document 01's board, where its octets lie:
// what the arguments name and what they alone say, and then the operation. A refusal leaves every octet as
// it was.
#![tactic(auto)]

ghost use Rattle.std.specs.Prelude.{◌≡◌, []};
ghost use Rattle.cells.specs.Cells.{zeros};
ghost use Rattle.record_octets.specs.Record.{header_in};
ghost use Rattle.table.specs.Rows.{see};
ghost use Rattle.table_octets.specs.Table.{key_in, size_of_table, table_in};
ghost use Rattle.arguments.specs.Arguments.{posting, receiving, releasing, call_of};
ghost use Rattle.arguments.specs.Told.{answer_says, answer_place};
ghost use Rattle.transitions.specs.Transition.{Transition};

use arguments::parts::{load_asked, originator, put_posting_key, put_receipt_key, recipients};
use arguments::{Answer, block_at, by_check, check_posting, check_receipt};
use bits::OctetSize;
use cells::clear;
use inspect::keys::check_key;
use leaves::block::compliance_code;
use record_octets::RECORD;
use table_octets::{KEY, TABLE};
use transitions::{post_row, release_row, settle_row};

// A table before the first posting.
pub fn empty(t: &mut [u8; TABLE])
    ensures { (t.new ≡ zeros size_of_table) × (see (table_in t.new) ≡ []) × ((table_in t.new).count ≡ 0) }
{
    clear(t);
}

// Posts a block of a message: a row for it, unless its key is held or no line is free.
pub fn post(t: &mut [u8; TABLE], h: &[u8; RECORD], number: u32, count: OctetSize) -> Answer
    ensures { Transition (call_of (posting (header_in h.now) number count.0)) t.old (answer_says result) t.new × (answer_place result ≡ 0) }
{
    let block = block_at(h, number);
    let said = check_posting(h, block, number, count);
    let mut key = [0u8; KEY];
    put_posting_key(&mut key, h, block);
    let asked = load_asked(block);
    let to = recipients(h);
    post_row(t, &key, asked, to, said)
}

// Settles what a receipt answers, in the row with its key, at its answerer, with its code.
pub fn receipt(t: &mut [u8; TABLE], h: &[u8; RECORD], number: u32, count: OctetSize) -> Answer
    ensures { Transition (call_of (receiving (header_in h.now) number count.0)) t.old (answer_says result) t.new × (answer_place result ≡ 0) }
{
    let block = block_at(h, number);
    let said = check_receipt(h, block, number, count);
    let mut key = [0u8; KEY];
    put_receipt_key(&mut key, h, block);
    let from = originator(h);
    let code = compliance_code(block);
    settle_row(t, &key, from, code, said)
}

// Takes a message out of the table.
pub fn release(t: &mut [u8; TABLE], key: &[u8; KEY]) -> Answer
    ensures { Transition (call_of (releasing (key_in key.now))) t.old (answer_says result) t.new × (answer_place result ≡ 0) }
{
    let said = by_check(check_key(key));
    release_row(t, key, said)
}
