// Two faults at once: the earlier check decides. Fields are judged in their order whatever the fault's number is, a
// list's count before its entries; then come the rules (41 to 49), the sizes (52 to 54), 12 and 11.
use crate::cases::{case, without_room};
use crate::plan::Key::*;
use std::io;

pub fn fronts(rt: &impl Print) -> io::Result<()> {
    // 2 before 3, 3 before 5, 4 before 3.
    case(rt, &[Version.is(3), Urn.is(16777216)], 1)?;
    case(rt, &[Urn.is(16777216), Recipients.is(17)], 1)?;
    case(
        rt,
        &[Name.is(0), Recipients.is(1), RecipientUrn.is(16777216)],
        1,
    )?;
    // The recipients' count before their forms, these before the sum with G3, and that before G3's forms.
    case(rt, &[Recipients.is(17), RecipientUrn.absent()], 1)?;
    case(
        rt,
        &[Recipients.is(9), NextRecipient.absent(), Information.is(8)],
        1,
    )?;
    case(
        rt,
        &[Recipients.is(9), Information.is(8), InformationUrn.absent()],
        1,
    )?;
    // G3's forms before the count of blocks, and that before the first block.
    case(
        rt,
        &[Information.is(1), InformationUrn.absent(), Blocks.is(0)],
        1,
    )?;
    case(rt, &[Blocks.is(17), Umf.is(9)], 1)
}

pub fn blocks(rt: &impl Print) -> io::Result<()> {
    // The first block's marking before the second's UMF: 4 before 3.
    case(rt, &[Blocks.is(2), Marking.is(0), NextUmf.is(9)], 1)?;
    case(rt, &[FileName.is(0), Operation.is(4)], 1)?;
    // The references' count before their forms, and these before their DTG; G5's DTG before G9's count.
    case(rt, &[References.is(5), ReferenceUrn.absent()], 1)?;
    case(
        rt,
        &[References.is(1), ReferenceUrn.absent(), Minute.is(60)],
        1,
    )?;
    case(rt, &[G5.is(1), Minute.is(60), References.is(5)], 1)
}

pub fn checks(rt: &impl Print) -> io::Result<()> {
    // A field before (a), also one behind G7, and a field of the second block before (f).
    case(rt, &[G5.is(1), Minute.is(60), Requests.is(0)], 1)?;
    case(rt, &[Requests.is(0), References.is(5)], 1)?;
    case(rt, &[Blocks.is(2), NextUmf.is(9)], 1)?;
    // (a) before the missing data, a wrong size before the length.
    case(rt, &[Requests.is(0)], 0)?;
    case(rt, &[Size.is(1)], usize::MAX)?;
    // 2, 41 and 54 before 11.
    without_room(rt, Version.is(3))?;
    without_room(rt, Requests.is(0))?;
    without_room(rt, Code.is(1))
}
