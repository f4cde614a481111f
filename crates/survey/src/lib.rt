// One look at the message blocks of a record where they lie: at each block's fields, the rules, its size and its bits.
#![tactic(auto)]

ghost use Rattle.std.specs.Prelude.{◌≡◌, true, ◌+◌, length, IfOk};
ghost use Rattle.codec.specs.Refusals.{check_no, finding_says};
ghost use Rattle.codec.specs.Writes.{Placed};
ghost use Rattle.header.specs.Sizes.{judgement};
ghost use Rattle.header.specs.Table.{block, blocks};
ghost use Rattle.record_octets.specs.Record.{size_of_block, block_in, size_of_blocks_list, blocks_of, size_of_blocks, blocks_in};
ghost use Rattle.rules.specs.Sees.{Sees, concluded};

use bits::{BitPlace, OctetSize};
use cells::{entry, load_word};
use checker::block::check_block;
use codec::{BlockFault, BlockNumber, Fault};
use ends::block::end_block;
use flag::end_flag;
use header::Setting;
use record_octets::in_blocks;
use rules::seen::{Seen, conclude, see, unseen};
use rules::sizes::alone_share;

// What the blocks so far show of the rules and the sizes, and the place behind them.
#[derive(Clone, Copy)]
pub struct Found {
    pub seen: Seen,
    pub end: BitPlace,
}

// What legal blocks show: what the rules and the sizes say, and the place behind the blocks.
#[derive(Clone, Copy)]
pub struct Survey {
    pub finding: Result<(), BlockFault>,
    pub end: BitPlace,
}

// A legal block of a record of that version, by its number, behind those that were looked at.
fn look(
    f: Found,
    version: u32,
    x: Setting,
    b: &[u8],
    number: BlockNumber,
    alone: OctetSize,
) -> Found
    requires { Placed f.end.0 (1 + (block version).size (block_in b.now)) × ((block version).check (block_in b.now) ≡ 0) × (length b.now ≡ size_of_block) }
    ensures { Sees x alone.0 number.0 (block_in b.now) f.seen result.seen × (result.end.0 ≡ (f.end.0 + 1) + (block version).size (block_in b.now)) }
{
    let behind = end_flag(f.end);
    Found {
        seen: see(f.seen, x, b, number, alone),
        end: end_block(behind, version, b),
    }
}

// The entries of a list of 1 to 16 blocks of a record of that version, in a setting, with so many octets of user data,
// from a place on that leaves room for the longest, 16 times 3,316 bits with their recurrence bits: the first fault of a
// field, or what legal blocks show. The header size is written as it has to be, so that it holds.
fn survey_entries(
    version: u32,
    x: Setting,
    list: &[u8],
    held: u32,
    octets: OctetSize,
    at: BitPlace,
) -> Result<Survey, Fault>
    requires { Placed at.0 53056 × (length list.now ≡ size_of_blocks_list) }
    ensures fields { check_no result ≡ (blocks version).check (blocks_of list.now held) }
    ensures found { IfOk result (λ s. (finding_says s.finding ≡ judgement x true octets.0 (blocks_of list.now held)) × (s.end.0 ≡ at.0 + (blocks version).size (blocks_of list.now held))) }
{
    let count = held as usize;
    if 16 < count || count == 0 {
        return Err(Fault::Count);
    }
    let alone = alone_share(count, octets);
    let mut found = Found {
        seen: unseen(x, octets),
        end: at,
    };
    for i in 0..count {
        let b = entry(list, i, in_blocks::ENTRY);
        check_block(version, b)?;
        found = look(found, version, x, b, BlockNumber(i as u32 + 1), alone);
    }
    Ok(Survey {
        finding: conclude(found.seen, true),
        end: found.end,
    })
}

// The blocks of a record of that version.
pub fn survey_blocks(
    version: u32,
    x: Setting,
    g: &[u8],
    octets: OctetSize,
    at: BitPlace,
) -> Result<Survey, Fault>
    requires { Placed at.0 53056 × (length g.now ≡ size_of_blocks) }
    ensures fields { check_no result ≡ (blocks version).check (blocks_in g.now) }
    ensures found { IfOk result (λ s. (finding_says s.finding ≡ judgement x true octets.0 (blocks_in g.now)) × (s.end.0 ≡ at.0 + (blocks version).size (blocks_in g.now))) }
{
    let count = load_word(&g[in_blocks::COUNT..in_blocks::END]);
    survey_entries(
        version,
        x,
        &g[in_blocks::LIST..in_blocks::COUNT],
        count,
        octets,
        at,
    )
}
