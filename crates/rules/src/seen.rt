// One look at the message blocks of a record, for the rules and the sizes.
ghost use Rattle.std.specs.Prelude.{◌≡◌, ◌&&◌, ◌-◌, min, length};
ghost use Rattle.codec.specs.Refusals.{finding_says};
ghost use Rattle.header.specs.Sizes.{judgement};
ghost use Rattle.record_octets.specs.Record.{size_of_block, block_in, size_of_blocks_list, blocks_of, size_of_blocks, blocks_in};
ghost use Rattle.rules.specs.Sees.{Unseen, Sees, concluded};

use crate::order::{Broken, better, broken_rule, wrong_body};
use crate::rule::{rank_of, whole_rank};
use crate::sizes::{alone_share, body_rank, share};
use bits::OctetSize;
use cells::{entry, load_word};
use codec::{BlockFault, BlockNumber, Fault};
use header::Setting;
use record_octets::in_blocks;

// What the blocks so far show: the first broken rule; the first body that is missing or may not be; whether the
// data octets were enough for their sizes, and what they leave of them.
#[derive(Clone, Copy)]
pub struct Seen {
    pub rule: Broken,
    pub body: Broken,
    pub fits: bool,
    pub left: OctetSize,
}

// Before the first block: what the record breaks as a whole.
pub fn unseen(x: Setting, octets: OctetSize) -> Seen
    ensures { Unseen x octets.0 result }
{
    Seen {
        rule: Broken {
            rank: whole_rank(x),
            block: BlockNumber(0),
        },
        body: Broken {
            rank: 2,
            block: BlockNumber(0),
        },
        fits: true,
        left: octets,
    }
}

// A block behind those that were looked at, by its number.
pub fn see(f: Seen, x: Setting, b: &[u8], number: BlockNumber, alone: OctetSize) -> Seen
    requires { length b.now ≡ size_of_block }
    ensures { Sees x alone.0 number.0 (block_in b.now) f result }
{
    let n = share(b, alone);
    Seen {
        rule: better(f.rule, rank_of(x, b), number),
        body: better(f.body, body_rank(b, n), number),
        fits: f.fits && n.0 <= f.left.0,
        left: OctetSize(f.left.0.saturating_sub(n.0)),
    }
}

// What all blocks show: the first broken rule; then the header size, the sum of the sizes, the bodies. The sum is
// right where the data octets were enough and none is left.
pub fn conclude(f: Seen, holds: bool) -> Result<(), BlockFault>
    ensures { finding_says result ≡ concluded holds f }
{
    broken_rule(f.rule)?;
    if !holds {
        return Err(BlockFault {
            fault: Fault::HeaderSize,
            block: BlockNumber(0),
        });
    }
    if !f.fits || f.left.0 != 0 {
        return Err(BlockFault {
            fault: Fault::SizeSum,
            block: BlockNumber(0),
        });
    }
    wrong_body(f.body)
}

// The entries of a list of blocks in a setting, with so many octets of user data; and whether the header size holds.
fn see_entries(
    x: Setting,
    list: &[u8],
    held: u32,
    octets: OctetSize,
    holds: bool,
) -> Result<(), BlockFault>
    requires { length list.now ≡ size_of_blocks_list }
    ensures { finding_says result ≡ judgement x holds octets.0 (blocks_of list.now held) }
{
    let count = held.min(16) as usize;
    let alone = alone_share(count, octets);
    let mut seen = unseen(x, octets);
    for i in 0..count {
        let b = entry(list, i, in_blocks::ENTRY);
        seen = see(seen, x, b, BlockNumber(i as u32 + 1), alone);
    }
    conclude(seen, holds)
}

// The blocks of a record in a setting, with so many octets of user data; and whether the header size holds.
pub fn see_blocks(x: Setting, g: &[u8], octets: OctetSize, holds: bool) -> Result<(), BlockFault>
    requires { length g.now ≡ size_of_blocks }
    ensures { finding_says result ≡ judgement x holds octets.0 (blocks_in g.now) }
{
    let count = load_word(&g[in_blocks::COUNT..in_blocks::END]);
    see_entries(
        x,
        &g[in_blocks::LIST..in_blocks::COUNT],
        count,
        octets,
        holds,
    )
}
