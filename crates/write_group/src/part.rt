// Parts of the record, and writing what is in the octets of one.
ghost use Rattle.std.specs.Prelude.{◌≡◌, ◌+◌, ◌*◌, ◌≤◌, suc, true, length};
ghost use Rattle.cells.specs.Cells.{many};
ghost use Rattle.codec.specs.Codec.{optional, flag, ◌&◌};
ghost use Rattle.codec.specs.Writes.{Room, Writes};
ghost use Rattle.record_parts.specs.Parts.{behind_flag, counted};

use bits::BitPlace;
use cells::{entry, load_flag};
use flag::write_flag;
use leaves::numbers::write_mark;
use record_parts::{Entry, Part};

pub trait Write: Part {
    // What is asked of a value that is to be written.
    ghost asks: { Self → Type 0 } = { λ _. Unit {0} };

    fn write(out: &mut [u8], at: BitPlace, x: &[u8]) -> BitPlace
        requires { Room out.old at.0 (Self.rule.size (Self.held x.now)) × asks (Self.held x.now) × (length x.now ≡ Self.OCTETS) }
        ensures { Writes Self.rule (Self.held x.now) out.old out.new at.0 result.0 };
}

// One that may be absent: a flag, and its octets from a place on.
pub fn write_optional_part<P: Write>(
    out: &mut [u8],
    at: BitPlace,
    place: usize,
    x: &[u8],
) -> BitPlace
    requires room { Room out.old at.0 ((optional P.none P.rule).size (behind_flag P.held place P.OCTETS x.now)) }
    requires asked { (behind_flag P.held place P.OCTETS x.now).0 ≡ true → P.asks (behind_flag P.held place P.OCTETS x.now).1 }
    requires whole { (1 ≤ place) × (length x.now ≡ place + P.OCTETS) }
    ensures { Writes (optional P.none P.rule) (behind_flag P.held place P.OCTETS x.now) out.old out.new at.0 result.0 }
{
    let next = write_mark(out, at, &x[..place]);
    if load_flag(&x[..place]) {
        return P::write(out, next, &x[place..]);
    }
    next
}

// A recurrence bit and the entry behind it.
fn write_entry<P: Write>(out: &mut [u8], at: BitPlace, more: bool, x: &[u8]) -> BitPlace
    requires { Room out.old at.0 (1 + P.rule.size (P.held x.now)) × P.asks (P.held x.now) × (length x.now ≡ P.OCTETS) }
    ensures { Writes (flag & P.rule) (more, P.held x.now) out.old out.new at.0 result.0 }
{
    let at = write_flag(out, at, more);
    P::write(out, at, x)
}

// The entries of a legal list: every one but the last has the recurrence bit 1.
pub fn write_entries<P: Write + Entry>(
    out: &mut [u8],
    at: BitPlace,
    list: &[u8],
    held: u32,
) -> BitPlace
    requires asked { (y : _) → P.asks y }
    requires room { Room out.old at.0 ((counted P.none (suc P.more) P.rule P.more).size (many P.held P.OCTETS (suc P.more) list.now, held)) }
    requires legal { (counted P.none (suc P.more) P.rule P.more).check (many P.held P.OCTETS (suc P.more) list.now, held) ≡ 0 }
    requires whole { length list.now ≡ suc P.more * P.OCTETS }
    ensures { Writes (counted P.none (suc P.more) P.rule P.more) (many P.held P.OCTETS (suc P.more) list.now, held) out.old out.new at.0 result.0 }
{
    let last = held as usize - 1;
    let mut place = at;
    for n in 0..last {
        place = write_entry::<P>(out, place, true, entry(list, n, P::OCTETS));
    }
    write_entry::<P>(out, place, false, entry(list, last, P::OCTETS))
}
