// Calls on the table of pending messages, at the limits of document 01. Each is a line of a script, which is printed
// with what came of it: `done` or `refused` with the number and, where the refusal is about one, the block; the
// listing, or a row's octets. The file stdout has what each has to be, worked from the papers.
#![tactic(auto)]

mod block;
mod days;
mod effects;
mod lists;
mod play;
mod put;
mod records;
mod refusals;
mod rows;
mod tell;
mod words;
mod wrong;

use std::io;

fn main(rt: HostRuntime) -> io::Result<()> {
    refusals::worked(&rt)?;
    refusals::postings(&rt)?;
    refusals::records(&rt)?;
    refusals::blocks_posted(&rt)?;
    refusals::blocks_received(&rt)?;
    refusals::versions(&rt)?;
    refusals::receipts(&rt)?;
    refusals::releases(&rt)?;
    days::calls(&rt)?;
    days::order(&rt)?;
    days::tried(&rt)?;
    days::stored(&rt)?;
    effects::codes(&rt)?;
    effects::code_two(&rt)?;
    effects::recipients(&rt)?;
    effects::keys(&rt)?;
    effects::names(&rt)?;
    effects::full(&rt)?;
    lists::rooms(&rt)?;
    lists::wrong_count(&rt)?;
    lists::wrong_rows(&rt)
}
