// Cases that differ from document 01's octets A in one, two or three numbers. A case's name is made of these
// numbers, of the octets of user data unless there is one, and of the room unless it is the whole output.
use crate::plan::Key::Flags;
use crate::plan::{Change, Plan, plain};
use crate::records::record;
use crate::tell::{WHOLE, line};
use std::io;

pub fn with_room(rt: &impl Print, p: Plan, data: usize, room: usize) -> io::Result<()> {
    if data != 1 {
        print!(rt; ", data {data}")?;
    }
    if room != WHOLE {
        print!(rt; ", room {room}")?;
    }
    line(rt, &record(&p), data, room, false)
}

// A plan, and the changes that make the case's name.
fn changed(rt: &impl Print, p: Plan, changes: &[Change]) -> io::Result<Plan> {
    for (i, change) in changes.iter().enumerate() {
        if i != 0 {
            print!(rt; ", ")?;
        }
        print!(rt; "{change}")?;
    }
    Ok(p.with(changes))
}

// Changes that the case's name tells, to a plan of which it tells nothing.
pub fn case_of(rt: &impl Print, p: Plan, changes: &[Change], data: usize) -> io::Result<()> {
    with_room(rt, changed(rt, p, changes)?, data, WHOLE)
}

pub fn case(rt: &impl Print, changes: &[Change], data: usize) -> io::Result<()> {
    case_of(rt, plain(), changes, data)
}

// One change, and an output without an octet.
pub fn without_room(rt: &impl Print, change: Change) -> io::Result<()> {
    with_room(rt, changed(rt, plain(), &[change])?, 1, 0)
}

// A case with a name of its own and the header's octets.
pub fn shown(rt: &impl Print, name: &str, p: Plan, data: usize) -> io::Result<()> {
    print!(rt; "{name}")?;
    line(rt, &record(&p), data, WHOLE, true)
}

// The same with another octet in every flag that is set.
pub fn with_flags(rt: &impl Print, name: &str, p: Plan, octet: u32, data: usize) -> io::Result<()> {
    let change = Flags.is(octet);
    print!(rt; "{name}, {change}")?;
    line(rt, &record(&p.with(&[change])), data, WHOLE, true)
}
