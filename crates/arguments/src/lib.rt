// What the arguments of a posting, a receipt or a release alone say: the refusals that need no table.
#![tactic(auto)]

ghost use Rattle.std.specs.Prelude.{◌≡◌, true, ◌&&◌, ◌+◌, ◌<◌, ◌≤◌, length};
ghost use Rattle.codec.specs.Refusals.{check_no};
ghost use Rattle.record_octets.specs.Record.{size_of_block, block_in, size_of_header, header_in};
ghost use Rattle.arguments.specs.Arguments.{has_block, block_at, asks, some_recipient, one_recipient, posting_fault, receipt_fault};
ghost use Rattle.codec.specs.Verdict.{plain};
ghost use Rattle.arguments.specs.Told.{pending_no, answer_says, answer_place, written_says};

use bits::{BitPlace, OctetSize};
use cells::{entry, load_flag, load_word};
use codec::{Fault, Refusal};
use leaves::block::{asks_acknowledge, asks_machine, asks_reply, has_requests, has_response};
use leaves::setting::{block_count, has_originator};
use record_octets::{RECORD, in_addresses, in_blocks, in_front, in_header, in_optional_addresses};

pub mod parts;

// Why a call is refused. The record's own faults, and a key's, are the writer's.
#[derive(Clone, Copy)]
pub enum PendingFault {
    Record(Fault),
    NothingAsked,
    NoRecipient,
    KeyHeld,
    TableFull,
    NoResponse,
    NotOneRecipient,
    NoRow,
    NotARecipient,
    NothingOpen,
    NoBlock,
    IllFormed,
}

// The number of a refusal.
impl From<PendingFault> for u32 {
    ghost from_gives = { λ f n. n ≡ pending_no f };

    #[tactic(auto, unfolding(crate::specs::Numbers::pending_no))]
    fn from(f: PendingFault) -> u32 {
        match f {
            PendingFault::Record(fault) => u32::from(fault),
            PendingFault::NothingAsked => 20,
            PendingFault::NoRecipient => 21,
            PendingFault::KeyHeld => 22,
            PendingFault::TableFull => 23,
            PendingFault::NoResponse => 24,
            PendingFault::NotOneRecipient => 25,
            PendingFault::NoRow => 26,
            PendingFault::NotARecipient => 27,
            PendingFault::NothingOpen => 28,
            PendingFault::NoBlock => 29,
            PendingFault::IllFormed => 30,
        }
    }
}

// The answer of a call: done, or refused. The place is always 0, and the block is 0 where the refusal is about none.
pub type Answer = Result<(), Refusal<PendingFault>>;

// A refusal that is about no block.
pub fn refusal(fault: PendingFault) -> Answer
    ensures { (answer_says result ≡ plain (pending_no fault)) × (answer_place result ≡ 0) }
{
    Err(Refusal::from(fault))
}

// The writer's answer on the record: its own refusal tells its block.
fn by_record(written: Result<OctetSize, Refusal<Fault>>) -> Answer
    ensures { (answer_says result ≡ written_says written) × (answer_place result ≡ 0) }
{
    match written {
        Ok(_) => Ok(()),
        Err(e) => Err(Refusal {
            fault: PendingFault::Record(e.fault),
            place: BitPlace(0),
            block: e.block,
        }),
    }
}

// What a key's own check says.
pub fn by_check(checked: Result<(), Fault>) -> Answer
    ensures { (answer_says result ≡ plain (check_no checked)) × (answer_place result ≡ 0) }
{
    match checked {
        Ok(()) => Ok(()),
        Err(fault) => refusal(PendingFault::Record(fault)),
    }
}

// Whether there is a block with this number, counted from 1.
pub fn has_block(h: &[u8], number: u32) -> bool
    requires { length h.now ≡ size_of_header }
    ensures { result ≡ has_block (header_in h.now) number }
{
    1 <= number && number <= block_count(h)
}

// The cell of a block's number, counted from 0; the first for a number that no block has.
fn cell_of(number: u32) -> usize
    ensures { (result < 16) × (1 ≤ number → number ≤ 16 → result + 1 ≡ number) }
{
    if number < 1 || 16 < number {
        return 0;
    }
    number as usize - 1
}

// That block's octets, of a record with at most 16; some other cell where the record has no such block.
pub fn block_at(h: &[u8], number: u32) -> &[u8]
    requires { length h.now ≡ size_of_header }
    ensures { (length result.now ≡ size_of_block) × (has_block (header_in h.now) number ≡ true → (header_in h.now).blocks.count ≤ 16 → block_in result.now ≡ block_at (header_in h.now) number) }
{
    let blocks = &h[in_header::BLOCKS..in_header::END];
    let list = &blocks[in_blocks::LIST..in_blocks::COUNT];
    entry(list, cell_of(number), in_blocks::ENTRY)
}

// Whether any request of G7 is set.
#[tactic(auto, unfolding(order::specs::Requests::ask_of))]
pub fn asks_any(b: &[u8]) -> bool
    requires { length b.now ≡ size_of_block }
    ensures { result ≡ asks (block_in b.now) }
{
    has_requests(b) && (asks_machine(b) || asks_acknowledge(b) || asks_reply(b))
}

// G2.
fn has_recipients(h: &[u8]) -> bool
    requires { length h.now ≡ size_of_header }
    ensures { result ≡ (header_in h.now).front.recipients.present }
{
    let front = &h[in_header::FRONT..in_header::SIZED];
    let group = &front[in_front::RECIPIENTS..in_front::INFORMATION];
    load_flag(&group[in_optional_addresses::PRESENT..in_optional_addresses::ADDRESSES])
}

fn recipient_count(h: &[u8]) -> u32
    requires { length h.now ≡ size_of_header }
    ensures { result ≡ (header_in h.now).front.recipients.addresses.count }
{
    let front = &h[in_header::FRONT..in_header::SIZED];
    let group = &front[in_front::RECIPIENTS..in_front::INFORMATION];
    let addresses = &group[in_optional_addresses::ADDRESSES..in_optional_addresses::END];
    load_word(&addresses[in_addresses::COUNT..in_addresses::END])
}

pub fn some_recipient(h: &[u8]) -> bool
    requires { length h.now ≡ size_of_header }
    ensures { result ≡ some_recipient (header_in h.now) }
{
    has_recipients(h) && 1 <= recipient_count(h)
}

// Whether a receipt has an originator and exactly one entry in G2.
pub fn one_recipient(h: &[u8]) -> bool
    requires { length h.now ≡ size_of_header }
    ensures { result ≡ ((header_in h.now).front.originator.present && one_recipient (header_in h.now)) }
{
    has_originator(h) && has_recipients(h) && recipient_count(h) == 1
}

// A posting's arguments, its block at hand: the record's own refusals, then 29, 20 and 21.
pub fn check_posting(h: &[u8; RECORD], block: &[u8], number: u32, count: OctetSize) -> Answer
    requires { (length block.now ≡ size_of_block) × (has_block (header_in h.now) number ≡ true → (header_in h.now).blocks.count ≤ 16 → block_in block.now ≡ block_at (header_in h.now) number) }
    ensures { (answer_says result ≡ posting_fault (header_in h.now) number count.0) × (answer_place result ≡ 0) }
{
    by_record(writer::check(h, count))?;
    if !has_block(h, number) {
        return refusal(PendingFault::NoBlock);
    }
    if !asks_any(block) {
        return refusal(PendingFault::NothingAsked);
    }
    if !some_recipient(h) {
        return refusal(PendingFault::NoRecipient);
    }
    Ok(())
}

// A receipt's arguments, its block at hand: the record's own refusals, then 29, 24 and 25.
pub fn check_receipt(h: &[u8; RECORD], block: &[u8], number: u32, count: OctetSize) -> Answer
    requires { (length block.now ≡ size_of_block) × (has_block (header_in h.now) number ≡ true → (header_in h.now).blocks.count ≤ 16 → block_in block.now ≡ block_at (header_in h.now) number) }
    ensures { (answer_says result ≡ receipt_fault (header_in h.now) number count.0) × (answer_place result ≡ 0) }
{
    by_record(writer::check(h, count))?;
    if !has_block(h, number) {
        return refusal(PendingFault::NoBlock);
    }
    if !has_response(block) {
        return refusal(PendingFault::NoResponse);
    }
    if !one_recipient(h) {
        return refusal(PendingFault::NotOneRecipient);
    }
    Ok(())
}
