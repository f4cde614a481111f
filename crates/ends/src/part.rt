// Parts of the record, and where what is in the octets of one ends.
ghost use Rattle.std.specs.Prelude.{◌≡◌, ◌+◌, ◌*◌, ◌≤◌, suc, true, length};
ghost use Rattle.cells.specs.Cells.{many};
ghost use Rattle.codec.specs.Codec.{optional};
ghost use Rattle.codec.specs.Writes.{Placed};
ghost use Rattle.record_parts.specs.Parts.{behind_flag, counted};

use bits::BitPlace;
use cells::{entry, load_flag};
use flag::end_flag;
use record_parts::{Entry, Part};

pub trait End: Part {
    // What is asked of a value whose end is to be found.
    ghost asks: { Self → Type 0 } = { λ _. Unit {0} };

    fn end(at: BitPlace, x: &[u8]) -> BitPlace
        requires { Placed at.0 (Self.rule.size (Self.held x.now)) × asks (Self.held x.now) × (length x.now ≡ Self.OCTETS) }
        ensures { result.0 ≡ at.0 + Self.rule.size (Self.held x.now) };
}

// One that may be absent: a flag, and its octets from a place on.
pub fn end_optional_part<P: End>(at: BitPlace, place: usize, x: &[u8]) -> BitPlace
    requires placed { Placed at.0 ((optional P.none P.rule).size (behind_flag P.held place P.OCTETS x.now)) }
    requires asked { (behind_flag P.held place P.OCTETS x.now).0 ≡ true → P.asks (behind_flag P.held place P.OCTETS x.now).1 }
    requires whole { (1 ≤ place) × (length x.now ≡ place + P.OCTETS) }
    ensures { result.0 ≡ at.0 + (optional P.none P.rule).size (behind_flag P.held place P.OCTETS x.now) }
{
    let behind = end_flag(at);
    if load_flag(&x[..place]) {
        return P::end(behind, &x[place..]);
    }
    behind
}

// The entries of a legal list.
pub fn end_entries<P: End + Entry>(at: BitPlace, list: &[u8], count: u32) -> BitPlace
    requires asked { (y : _) → P.asks y }
    requires placed { Placed at.0 ((counted P.none (suc P.more) P.rule P.more).size (many P.held P.OCTETS (suc P.more) list.now, count)) }
    requires legal { (counted P.none (suc P.more) P.rule P.more).check (many P.held P.OCTETS (suc P.more) list.now, count) ≡ 0 }
    requires whole { length list.now ≡ suc P.more * P.OCTETS }
    ensures { result.0 ≡ at.0 + (counted P.none (suc P.more) P.rule P.more).size (many P.held P.OCTETS (suc P.more) list.now, count) }
{
    let mut place = at;
    for i in 0..count as usize {
        let behind = end_flag(place);
        place = P::end(behind, entry(list, i, P::OCTETS));
    }
    place
}
