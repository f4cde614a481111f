// Postings, receipts and releases: document 01's octets B and C, and each refusal of a call on a table that calls
// have made.
use crate::play::play;
use std::io;

pub fn worked(rt: &impl Print) -> io::Result<()> {
    let lines = [
        "Post From 207, To 3, Asked 1",
        "Receipt From 3, To 207, Code 1",
        "Show",
    ];
    play(rt, &lines)?;
    let lines = ["Receipt From 3, To 207, Code 1 on an empty table", "Show"];
    play(rt, &lines)?;
    let lines = [
        "Post From 207, To 3, Asked 1",
        "Post From 207, To 3, Asked 1 again",
        "Show",
    ];
    play(rt, &lines)?;
    let lines = [
        "Post From 207, To 3, Asked 1",
        "Receipt From 3, To 207, Code 1",
        "Receipt From 3, To 207, Code 1 again",
        "Show",
    ];
    play(rt, &lines)
}

// Nothing asked, no recipient, no such block.
pub fn postings(rt: &impl Print) -> io::Result<()> {
    let lines = [
        "Post From 207, To 3",
        "Post From 207, To 3, Asked 0",
        "Post From 207, To 3, Code 1",
        "Post From 207, Asked 1",
        "Post From 207, Asked 0",
        "Post From 207",
        "Post From 207, To 3, Asked 1, Number 0",
        "Post From 207, To 3, Asked 1, Number 2",
        "Post From 207, To 3, Asked 1, Number 17",
        "Post From 207, Number 2",
        "Show",
    ];
    play(rt, &lines)?;
    let lines = [
        "Post From 207, To 3, Asked 1, Blocks 2, Number 2, User data 2",
        "Post From 207, To 3, Asked 1, Blocks 2, Number 3, User data 2",
        "Post From 207, To 3, Asked 1, Blocks 2, Number 1, User data 2",
        "Post From 207, To 3, Asked 1",
        "Post From 207, To 3, Asked 1, eXtension 9",
        "Show",
    ];
    play(rt, &lines)
}

// A record's own fault comes before the missing block and whatever else is wrong.
pub fn records(rt: &impl Print) -> io::Result<()> {
    let lines = [
        "Post From 207, To 3, Asked 1, Minute 75, Number 2",
        "Post From 207, To 3, Minute 75",
        "Post From 207, To 3, Asked 1, Version 3",
        "Post From (), To 3, Asked 1",
        "Post From (AB~), To 3, Asked 1",
        "Post From 207 (AB), To 3, Asked 1",
        "Post From, To 3, Asked 1",
        "Post From 207, To 16777216, Asked 1",
        "Post To 3, Asked 1",
        "Post From 207, To 3, Asked 1, User data 0",
        "Post From 207, To 3, Asked 1, User data 65492",
        "Post From 207, To 3, Asked 1, User data 65491",
        "Post From 207, To 3, Asked 1, Minute 75",
        "Show",
    ];
    play(rt, &lines)?;
    let lines = [
        "Receipt From 3, To 207, Code 0, Number 2",
        "Receipt From 3, To 207, Code 7",
        "Receipt From 3, To 207, Code 1, Minute 75",
        "Receipt From 3, To 207, Code 1, User data 1",
        "Receipt From 3, To 207, Code 1, Asked 1",
        "Receipt From 3, To, Code 1",
        "Post From 207, To 3, To 3, To 3, To 3, To 3, To 3, To 3, To 3, To 3, To 3, To 3, \
         To 3, To 3, To 3, To 3, To 3, To 3, Asked 1",
        "Post From 207, To 3, To 3, To 3, To 3, To 3, To 3, To 3, To 3, To 3, To 3, To 3, \
         To 3, To 3, To 3, To 3, To 3, Asked 1",
        "Show",
    ];
    play(rt, &lines)
}

// Two blocks or more: a rule or a size that is wrong in any block refuses the call, whichever block is posted, and
// tells that block; the earlier rule decides, and then the earlier block. All this comes before the missing block.
pub fn blocks_posted(rt: &impl Print) -> io::Result<()> {
    let lines = [
        "Post From 207, To 3, Asked 1, Blocks 2, User data 2, idEntified, Later format 1",
        "Post From 207, To 3, Asked 1, Blocks 2, User data 2, idEntified, Later format 1, \
         Number 2",
        "Post From 207, To 3, Asked 1, Blocks 2, User data 2, idEntified, Later format 1, \
         Number 3",
        "Post From 207, To 3, Asked 1, Blocks 2, User data 2, idEntified, In format 4, \
         Later format 1",
        "Post From 207, To 3, Asked 1, Blocks 2, User data 2, idEntified, In format 4, \
         Later format 4",
        "Post From 207, To 3, Asked 1, Blocks 16, User data 16, idEntified, \
         Later format 4, Number 16",
        "Post To 3, Asked 1, Blocks 2, User data 2, idEntified, Later format 1",
        "Post From 207, To 3, Asked 1, Blocks 2, User data 2, no header siZe",
        "Post From 207, To 3, Asked 1, Blocks 2, User data 3",
        "Show",
        "Post From 207, To 3, Asked 1, Blocks 2, User data 2, idEntified, Later format 5, \
         Number 2",
        "Show",
    ];
    play(rt, &lines)
}

// A receipt in UMF 4 lacks its body (53) at any size, but a wrong sum (52) comes before that.
pub fn blocks_received(rt: &impl Print) -> io::Result<()> {
    let lines = [
        "Post From 207, To 3, Asked 1",
        "Receipt From 3, To 207, Code 1, In format 4",
        "Receipt From 3, To 207, Code 1, In format 4, User data 1",
        "Receipt From 3, To 207, Code 1, Blocks 2, Later format 4",
        "Receipt From 3, To 207, Code 1, Blocks 2, Later format 4, Number 3",
        "Receipt From 3, To 207, Code 1, Blocks 2, Later format 4, User data 1",
        "Receipt From 3, To 207, Code 1, Blocks 2, Later format 4, idEntified",
        "Receipt From 3, To 207, Code 1, Blocks 2, In format 4, Later format 1, idEntified",
        "Receipt From 3, To 207, Code 1, Blocks 2, no header siZe",
        "Show",
        "Receipt From 3, To 207, Code 1, Blocks 2, Later format 5, idEntified",
        "Show",
    ];
    play(rt, &lines)
}

// Version 1 beside version 2: the table does not tell them apart. A standard version that version 1 does not have comes
// before the missing block and whatever else is wrong.
pub fn versions(rt: &impl Print) -> io::Result<()> {
    let lines = [
        "Post From 207, To 3, Asked 1, Version 1",
        "Post From 207, To 3, Asked 1 again",
        "Receipt From 3, To 207, Code 1",
        "Receipt From 3, To 207, Code 1, Version 1",
        "Show",
    ];
    play(rt, &lines)?;
    let lines = [
        "Post From 207, To 3, Asked 1, With standard version 15",
        "Post From 207, To 3, Asked 1, Version 1",
        "Receipt From 3, To 207, Code 1, Version 1",
        "Show",
    ];
    play(rt, &lines)?;
    let lines = [
        "Post From 207, To 3, Asked 1, Version 1, With standard version 0",
        "Post From 207, To 3, Version 1, With standard version 0, Number 2",
        "Receipt From 3, To 207, Code 1, Version 1, With standard version 15",
        "Post From 207, To 3, Asked 1, With standard version 16",
        "Post From 207, To 3, Asked 1, Version 0",
        "Post From 207, To 3, Asked 1, Version 15",
        "Post From 207, To 3, Asked 1, Version 17",
        "Show",
    ];
    play(rt, &lines)
}

// No G8, no originator or not one recipient, no row, no such block.
pub fn receipts(rt: &impl Print) -> io::Result<()> {
    let lines = [
        "Post From 207, To 3, Asked 1",
        "Receipt From 3, To 207",
        "Receipt From 3",
        "Receipt From 3, To 207, Asked 1",
        "Receipt To 207, Code 1",
        "Receipt From 3, Code 1",
        "Receipt From 3, To 207, To 208, Code 1",
        "Receipt From 3, To 207, To 207, Code 1",
        "Receipt From 3, To 207, Code 1, Number 0",
        "Receipt From 3, To 207, Code 1, Number 2",
        "Receipt From 3, To 207, Number 2",
        "Show",
    ];
    play(rt, &lines)?;
    let lines = [
        "Post From 207, To 3, Asked 1",
        "Receipt From 3, To 208, Code 1",
        "Receipt From 3, To 207, Code 1, Second 54",
        "Receipt From 3, To 207, Code 1, eXtension 0",
        "Receipt From 3, To (207), Code 1",
        "Receipt From 4, To 207, Code 1",
        "Receipt From (3), To 207, Code 1",
        "Receipt From 4, To 207, Code 3",
        "Receipt From 3, To 207, Code 3",
        "Receipt From 3, To 207, Code 4",
        "Show",
        "Receipt From 3, To 207, Code 1, Blocks 2, Number 2, User data 0",
        "Receipt From 3, To 207, Code 1, Blocks 2, Number 1, User data 0",
        "Show",
    ];
    play(rt, &lines)
}

pub fn releases(rt: &impl Print) -> io::Result<()> {
    let lines = [
        "Free From 207",
        "Post From 207, To 3, Asked 1",
        "Free From 208",
        "Free From 207, Second 54",
        "Free From 207, eXtension 0",
        "Free From (207)",
        "Free From 207, Minute 75",
        "Free From 16777216",
        "Free From 207, Of month 13",
        "Free From 207, eXtension 4096",
        "Free From ()",
        "Free From (AB~)",
        "Free From 207 (AB)",
        "Free From",
        "Free From, Minute 75",
        "Free From (), Minute 75",
        "Free From 16777216 (AB)",
        "Show",
        "Free From 207",
        "Show",
        "Free From 207",
        "Receipt From 3, To 207, Code 1",
        "Post From 207, To 3, Asked 1",
        "Show",
    ];
    play(rt, &lines)
}
