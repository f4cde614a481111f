// Records at the limits of document 01, written. Each case is one line: its name; then `written` with the
// octets of the header, whether the octets behind it are as they were, and the length that the reader tells
// of it, or `refused` with the number and, where the refusal is about one, the block, and whether the output is
// as it was. A date's line has this for each of four groups, behind what the check says of the record. The file
// stdout has what each has to be, worked from the papers; the count of bits stands beside the case.
//
// The counts begin with octets A, 33 bits: version 4; one for each of compression, G1, G2, G3 and the header
// size, which are absent; and a block of 24: recurrence 1, UMF 4, standard version, G4, file name and message
// size 1 each, the four codes 8, marking and G5 to G10 1 each.
#![tactic(auto)]

mod block;
mod cases;
mod days;
mod flags;
mod lengths;
mod lists;
mod numbers;
mod order;
mod parts;
mod plan;
mod records;
mod rules_and_sizes;
mod tell;
mod texts;
mod unused;
mod versions;
mod which;
mod worked;

use std::io;

fn fields(rt: &impl Print) -> io::Result<()> {
    worked::octets(rt)?;
    worked::every_field(rt)?;
    versions::octets(rt)?;
    versions::every_group(rt)?;
    versions::last_block(rt)?;
    versions::refused(rt)?;
    texts::originators(rt)?;
    texts::characters(rt)?;
    texts::others(rt)?;
    texts::recipients(rt)?;
    numbers::fronts(rt)?;
    numbers::formats(rt)?;
    numbers::codes(rt)?;
    numbers::dates(rt)?;
    numbers::times(rt)?;
    numbers::other_times(rt)?;
    days::february(rt)?;
    days::months(rt)?;
    days::order(rt)?;
    numbers::receipts(rt)?;
    lists::forms(rt)?;
    lists::forms_in_lists(rt)?;
    lists::addressees(rt)?;
    lists::blocks(rt)?;
    lists::references(rt)
}

fn main(rt: HostRuntime) -> io::Result<()> {
    fields(&rt)?;
    rules_and_sizes::rules_a_to_e(&rt)?;
    rules_and_sizes::rule_f(&rt)?;
    rules_and_sizes::rules_g_to_i(&rt)?;
    rules_and_sizes::second_block(&rt)?;
    rules_and_sizes::receipts(&rt)?;
    rules_and_sizes::one_block(&rt)?;
    rules_and_sizes::several_blocks(&rt)?;
    rules_and_sizes::sixteen_blocks(&rt)?;
    which::rule_behind_rule(&rt)?;
    which::rule_twice(&rt)?;
    which::missing_header_size(&rt)?;
    which::bodies(&rt)?;
    which::format_4(&rt)?;
    lengths::lengths(&rt)?;
    lengths::rooms(&rt)?;
    order::fronts(&rt)?;
    order::blocks(&rt)?;
    order::checks(&rt)?;
    unused::unused_cells(&rt)?;
    flags::written(&rt)?;
    flags::refused(&rt)
}
