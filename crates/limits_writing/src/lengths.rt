// Header and data in at most 65,507 octets (12), and the room for the header (11).
use crate::cases::with_room;
use crate::plan::{Plan, plain};
use crate::tell::WHOLE;
use crate::worked::{octets_b, octets_c};
use std::io;

// Each case: a name, its plan, the room and the octets of user data.
fn all(rt: &impl Print, cases: &[(&str, Plan, usize, usize)]) -> io::Result<()> {
    for &(name, p, room, data) in cases {
        print!(rt; "{name}")?;
        with_room(rt, p, data, room)?;
    }
    Ok(())
}

pub fn lengths(rt: &impl Print) -> io::Result<()> {
    let cases = [
        // The block owns no octet, and has no G8: 53.
        ("A", plain(), WHOLE, 0),
        // 5 + 65,502 octets.
        ("A", plain(), WHOLE, 65502),
        ("A", plain(), WHOLE, 65503),
        // Added to the header's 5 octets these counts pass 64 bits. The block has no size and owns them all.
        ("A", plain(), WHOLE, usize::MAX - 4),
        ("A", plain(), WHOLE, usize::MAX),
        // 16 + 65,491 octets.
        ("B", octets_b(), WHOLE, 65491),
        ("B", octets_b(), WHOLE, 65492),
        // A receipt owns nothing: 54 comes before 12.
        ("C", octets_c(), WHOLE, 65508),
        ("C", octets_c(), WHOLE, usize::MAX),
    ];
    all(rt, &cases)
}

pub fn rooms(rt: &impl Print) -> io::Result<()> {
    let cases = [
        ("A", plain(), 5, 1),
        ("A", plain(), 4, 1),
        ("A", plain(), 0, 1),
        ("B", octets_b(), 17, 1),
        ("B", octets_b(), 16, 1),
        ("B", octets_b(), 15, 1),
        ("C", octets_c(), 16, 0),
        ("C", octets_c(), 15, 0),
        // 12 and 53 come before 11.
        ("A", plain(), 4, 65503),
        ("A", plain(), 4, 0),
    ];
    all(rt, &cases)
}
