// What a datagram does to the table of pending messages.
#![tactic(auto)]

ghost use Rattle.std.specs.Prelude.{◌≡◌, length};
ghost use Rattle.record_octets.specs.Record.{size_of_header, header_in};
ghost use Rattle.table.specs.Rows.{see};
ghost use Rattle.table.specs.WellFormed.{well_formed};
ghost use Rattle.table_octets.specs.Table.{table_in};
ghost use Rattle.arguments.specs.Arguments.{block_at};
ghost use Rattle.playing.specs.Plays.{Plays, turn, rows_of, played};

use bits::OctetSize;
use cells::entry;
use leaves::block::has_response;
use leaves::setting::block_count;
use pending::{post, receipt};
use record_octets::{RECORD, in_blocks, in_header};
use table_octets::TABLE;

// Whether the block with this number, counted from 1, has G8.
fn is_receipt(h: &[u8], number: u32) -> bool
    requires { length h.now ≡ size_of_header }
    ensures { result ≡ (block_at (header_in h.now) number).response.present }
{
    if number < 1 || 16 < number {
        return false;
    }
    let i = number as usize - 1;
    let blocks = &h[in_header::BLOCKS..in_header::END];
    let list = &blocks[in_blocks::LIST..in_blocks::COUNT];
    has_response(entry(list, i, in_blocks::ENTRY))
}

// One block's call. A call that is refused leaves the table as it was.
fn play_block(t: &mut [u8; TABLE], h: &[u8; RECORD], number: u32, count: OctetSize)
    ensures { Plays (turn (header_in h.now) number count.0) t.old t.new }
{
    if is_receipt(h, number) {
        let _ = receipt(t, h, number, count);
    } else {
        let _ = post(t, h, number, count);
    }
}

// The calls of a record's blocks, from the first.
fn play_blocks(t: &mut [u8; TABLE], h: &[u8; RECORD], count: OctetSize)
    ensures { (see (table_in t.new) ≡ rows_of (header_in h.now) count.0 (table_in t.old) (header_in h.now).blocks.count) × (well_formed (table_in t.new) ≡ well_formed (table_in t.old)) }
{
    for i in 0..block_count(h) {
        play_block(t, h, i + 1, count);
    }
}

// A datagram: where it is accepted, each block is a call, a receipt where it has G8, otherwise a posting.
pub fn play(t: &mut [u8; TABLE], datagram: &[u8])
    ensures { (see (table_in t.new) ≡ played (table_in t.old) datagram.now) × (well_formed (table_in t.new) ≡ well_formed (table_in t.old)) }
{
    let mut octets = [0u8; RECORD];
    if reader::read(datagram, &mut octets).is_err() {
        return;
    }
    let data = reader::user_data(datagram);
    play_blocks(t, &octets, OctetSize(data.len()));
}
