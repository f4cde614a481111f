// The first broken rule, by its rank, and the block that breaks it.
ghost use Rattle.std.specs.Prelude.{◌≡◌};
ghost use Rattle.codec.specs.Refusals.{finding_says};
ghost use Rattle.rules.specs.Ranks.{rule_numbers, body_numbers, told_of, better_rank, better_block};

use codec::{BlockFault, BlockNumber, Fault};

// What was found first so far: the rule's rank, and the block, 0 where it is the record as a whole.
#[derive(Clone, Copy)]
pub struct Broken {
    pub rank: u32,
    pub block: BlockNumber,
}

// A block's rank beside what was found before it: an earlier rule takes its place.
pub fn better(found: Broken, rank: u32, block: BlockNumber) -> Broken
    ensures { (result.rank ≡ better_rank rank found.rank) × (result.block.0 ≡ better_block rank found.rank block.0 found.block.0) }
{
    if rank < found.rank {
        return Broken { rank, block };
    }
    found
}

// The rules (a) to (i) have the ranks 0 to 8.
pub fn broken_rule(found: Broken) -> Result<(), BlockFault>
    ensures { finding_says result ≡ told_of rule_numbers found.rank found.block.0 }
{
    let fault = match found.rank {
        0 => Fault::RuleA,
        1 => Fault::RuleB,
        2 => Fault::RuleC,
        3 => Fault::RuleD,
        4 => Fault::RuleE,
        5 => Fault::RuleF,
        6 => Fault::RuleG,
        7 => Fault::RuleH,
        8 => Fault::RuleI,
        _ => return Ok(()),
    };
    Err(BlockFault {
        fault,
        block: found.block,
    })
}

// Of the sizes, the rules on a block's body: the ranks 0 and 1.
pub fn wrong_body(found: Broken) -> Result<(), BlockFault>
    ensures { finding_says result ≡ told_of body_numbers found.rank found.block.0 }
{
    let fault = match found.rank {
        0 => Fault::NoBody,
        1 => Fault::NeedlessBody,
        _ => return Ok(()),
    };
    Err(BlockFault {
        fault,
        block: found.block,
    })
}
