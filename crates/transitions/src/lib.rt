// What posting, receipt and release do to the octets of any table, once it is known what their arguments
// say: a table that is not well formed is refused first, then what the arguments refuse, then what the rows
// refuse, and only then does the first octet change.
#![tactic(auto)]

ghost use Rattle.std.specs.Prelude.{◌≡◌, true, map, ◌<◌, length, take, MatchResult};
ghost use Rattle.codec.specs.Answer.{pick};
ghost use Rattle.codec.specs.Verdict.{plain};
ghost use Rattle.header.specs.Table.{addresses};
ghost use Rattle.record_octets.specs.Record.{size_of_address, address_in, size_of_addresses, addresses_in};
ghost use Rattle.order.specs.Values.{address_of, key_of, key_fault};
ghost use Rattle.order.specs.Requests.{any_of, ask_of};
ghost use Rattle.calls.specs.Operations as operation;
ghost use Rattle.order.specs.Calls.{make};
ghost use Rattle.table_octets.specs.Table.{size_of_key, key_in, key_octets, size_of_table, table_in};
ghost use Rattle.table_octets.specs.Typed.{TypedKey};
ghost use Rattle.table_octets.specs.Image.{key_image};
ghost use Rattle.arguments.specs.Arguments.{named};
ghost use Rattle.arguments.specs.Told.{answer_says, answer_place};
ghost use Rattle.table.specs.Search.{Placed};
ghost use Rattle.table.specs.WellFormed.{well_formed};
ghost use Rattle.transitions.specs.Transition.{Transition};

use arguments::{Answer, PendingFault, refusal};
use cells::load_word;
use codec::Refusal;
use header::Requests;
use inspect::inspect;
use places::{put_row, remove_row};
use settled::settled_row;
use table::Position;
use table_octets::in_table;

mod places;
mod settled;

// Where the key stands, unless the call is refused before a row is asked: by the table's form first, then by what the arguments alone say.
fn sought(t: &[u8], key: &[u8], said: Answer) -> Result<Position, Refusal<PendingFault>>
    requires { (length t.now ≡ size_of_table) × (length key.now ≡ size_of_key) × (answer_place said ≡ 0) }
    ensures { MatchResult result (λ p. (well_formed (table_in t.now) ≡ true) × ((answer_says said).number ≡ 0) × Placed (table_in t.now) (key_in key.now) p) (λ e. (answer_says (Err e) ≡ pick (well_formed (table_in t.now)) (answer_says said) (plain 30)) × (0 < (answer_says (Err e)).number) × (answer_place (Err e) ≡ 0)) }
{
    let Some(place) = inspect(t, key) else {
        return Err(Refusal::from(PendingFault::IllFormed));
    };
    said?;
    Ok(place)
}

// The count of rows.
fn row_count(t: &[u8]) -> u32
    requires { length t.now ≡ size_of_table }
    ensures { result ≡ (table_in t.now).count }
{
    load_word(&t[in_table::COUNT..in_table::END])
}

// A row for a message, unless its key is held or no line is free. The key has nothing in its unused cells.
pub fn post_row(t: &mut [u8], key: &[u8], asked: Requests, to: &[u8], said: Answer) -> Answer
    requires { (length t.old ≡ size_of_table) × (key.now ≡ key_octets (key_image (key_of (key_in key.now)))) × TypedKey (key_image (key_of (key_in key.now))) × (length to.now ≡ size_of_addresses) × (answer_place said ≡ 0) × ((answer_says said).number ≡ 0 → (key_fault (key_in key.now) ≡ 0) × (any_of (ask_of asked) ≡ true) × ((addresses 15).check (addresses_in to.now) ≡ 0)) }
    ensures { Transition (named (answer_says said) (operation.post (key_of (key_in key.now)) (make (ask_of asked) (map address_of (take (addresses_in to.now).count (addresses_in to.now).list))))) t.old (answer_says result) t.new × (answer_place result ≡ 0) }
{
    let place = sought(t, key, said)?;
    let Err(at) = place else {
        return refusal(PendingFault::KeyHeld);
    };
    let count = row_count(t);
    if 32 <= count {
        return refusal(PendingFault::TableFull);
    }
    put_row(t, count, at, key, asked, to);
    Ok(())
}

// The code written in the row with the key, at the answerer, to each open request that it answers.
pub fn settle_row(t: &mut [u8], key: &[u8], from: &[u8], code: u32, said: Answer) -> Answer
    requires { (length t.old ≡ size_of_table) × (length key.now ≡ size_of_key) × (length from.now ≡ size_of_address) × (answer_place said ≡ 0) × ((answer_says said).number ≡ 0 → 0 < code) }
    ensures { Transition (named (answer_says said) (operation.receipt (key_of (key_in key.now)) (address_of (address_in from.now), code))) t.old (answer_says result) t.new × (answer_place result ≡ 0) }
{
    let place = sought(t, key, said)?;
    let Ok(at) = place else {
        return refusal(PendingFault::NoRow);
    };
    let start = at * in_table::ENTRY;
    let end = start + in_table::ENTRY;
    settled_row(&mut t[start..end], from, code)
}

// The row with the key taken out.
pub fn release_row(t: &mut [u8], key: &[u8], said: Answer) -> Answer
    requires { (length t.old ≡ size_of_table) × (length key.now ≡ size_of_key) × (answer_place said ≡ 0) }
    ensures { Transition (named (answer_says said) (operation.release (key_of (key_in key.now)))) t.old (answer_says result) t.new × (answer_place result ≡ 0) }
{
    let place = sought(t, key, said)?;
    let Ok(row) = place else {
        return refusal(PendingFault::NoRow);
    };
    let count = row_count(t);
    remove_row(t, count, row);
    Ok(())
}
