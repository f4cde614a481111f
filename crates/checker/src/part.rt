// Parts of the record that may be absent or stand in lists, and the first refusal of what is in the octets of one.
ghost use Rattle.std.specs.Prelude.{◌≡◌, ◌+◌, ◌*◌, ◌<◌, ◌≤◌, suc, length};
ghost use Rattle.cells.specs.Cells.{many};
ghost use Rattle.codec.specs.Codec.{optional};
ghost use Rattle.codec.specs.Refusals.{check_no};
ghost use Rattle.record_parts.specs.Parts.{behind_flag, counted};

use cells::{entry, load_flag};
use codec::Fault;
use record_parts::{Entry, Part};

pub trait Check: Part {
    fn check(x: &[u8]) -> Result<(), Fault>
        requires { length x.now ≡ Self.OCTETS }
        ensures { check_no result ≡ Self.rule.check (Self.held x.now) };
}

// One that may be absent: a flag, and its octets from a place on.
pub fn check_optional_part<P: Check>(place: usize, x: &[u8]) -> Result<(), Fault>
    requires { (1 ≤ place) × (length x.now ≡ place + P.OCTETS) }
    ensures { check_no result ≡ (optional P.none P.rule).check (behind_flag P.held place P.OCTETS x.now) }
{
    if load_flag(&x[..place]) {
        return P::check(&x[place..]);
    }
    Ok(())
}

// The entries of a list of 1 to left + 1: their count, then each.
pub fn check_entries<P: Check + Entry>(left: usize, list: &[u8], held: u32) -> Result<(), Fault>
    requires { (left < 16) × (left ≤ P.more) × (length list.now ≡ suc P.more * P.OCTETS) }
    ensures { check_no result ≡ (counted P.none (suc P.more) P.rule left).check (many P.held P.OCTETS (suc P.more) list.now, held) }
{
    let count = held as usize;
    if left + 1 < count || count == 0 {
        return Err(Fault::Count);
    }
    for i in 0..count {
        P::check(entry(list, i, P::OCTETS))?;
    }
    Ok(())
}
