// The days that a month has: any other is 3 in a record or a key, and 30 in a row of the table. February has 29 where the
// year divides by four, and year 0 does: it is 2000.
use crate::play::play;
use std::io;

// In G5, in G8 and in the key of a release. A legal day that no row has is 26.
pub fn calls(rt: &impl Print) -> io::Result<()> {
    let lines = [
        "Post From 207, To 3, Asked 1, Of month 6, Day 31",
        "Post From 207, To 3, Asked 1, Of month 6, Day 30",
        "Post From 207, To 3, Asked 1, Year 1, Of month 2, Day 29",
        "Post From 207, To 3, Asked 1, Year 0, Of month 2, Day 29",
        "Post From 207, To 3, Asked 1, Year 4, Of month 2, Day 29",
        "Post From 207, To 3, Asked 1, Year 99, Of month 2, Day 29",
        "Post From 207, To 3, Asked 1, Year 99, Of month 12, Day 31",
        "Receipt From 3, To 207, Code 1, Of month 6, Day 31",
        "Receipt From 3, To 207, Code 1, Of month 6, Day 30",
        "Receipt From 3, To 207, Code 1, Year 1, Of month 2, Day 29",
        "Receipt From 3, To 207, Code 1, Year 0, Of month 2, Day 29",
        "Receipt From 3, To 207, Code 1, Year 8, Of month 2, Day 29",
        "Free From 207, Of month 6, Day 31",
        "Free From 207, Year 1, Of month 2, Day 29",
        "Free From 208, Year 0, Of month 2, Day 29",
        "Show",
        "Free From 207, Year 0, Of month 2, Day 29",
        "Free From 207, Year 0, Of month 2, Day 29",
        "Show",
    ];
    play(rt, &lines)
}

// Before nothing asked (20), no recipient (25) and no such block (29); behind the address of a key (4, 6). A year or
// month out of range is 3 too.
pub fn order(rt: &impl Print) -> io::Result<()> {
    let lines = [
        "Post From 207, To 3, Of month 6, Day 31",
        "Post From 207, To 3, Asked 1, Of month 6, Day 31, Number 2",
        "Post From 207, To 3, Asked 1, Blocks 2, User data 2, Of month 6, Day 31, Number 2",
        "Post From 207, To 3, Asked 1, Of month 6, Day 31, Version 1",
        "Receipt From 3, Code 1, Of month 6, Day 31",
        "Receipt From 3, To 207, Code 1, Of month 6, Day 31, Number 2",
        "Free From, Of month 6, Day 31",
        "Free From (), Of month 6, Day 31",
        "Free From 207, Year 100, Of month 6, Day 31",
        "Free From 207, Of month 13, Day 31",
        "Show",
    ];
    play(rt, &lines)
}

// A row that is handed in, tried with one date after the other. Row 1 has 30 + 8 = 38 octets in the listing.
pub fn tried(rt: &impl Print) -> io::Result<()> {
    let lines = [
        "Post From 1, To 3, Asked 1",
        "Post From 2, To 3, Asked 7",
        "Try Kind 960631, From 9, To 5, Asked 1",
        "Try Kind 960630, From 9, To 5, Asked 1",
        "Try Kind 960230, From 9, To 5, Asked 1",
        "Try Kind 010229, From 9, To 5, Asked 1",
        "Try Kind 990229, From 9, To 5, Asked 1",
        "Try Kind 990228, From 9, To 5, Asked 1",
        "Try Kind 000229, From 9, To 5, Asked 1",
        "Try Kind 040229, From 9, To 5, Asked 1",
        "Show",
    ];
    play(rt, &lines)
}

// The table that has such a row is refused before anything else, by every call; with a day that there is it is a table.
pub fn stored(rt: &impl Print) -> io::Result<()> {
    let lines = [
        "Post From 1, To 3, Asked 1",
        "Post From 2, To 3, Asked 7",
        "Wrong Kind 960631",
        "Post From 9, To 5, Asked 1",
        "Post From 9, To 5, Asked 1, Of month 6, Day 31",
        "Receipt From 3, To 2, Code 1",
        "Receipt From 3, To 1, Code 1, Of month 6, Day 31",
        "Free From 2",
        "Free From 1, Of month 6, Day 31",
        "Line Number 0",
        "Line Number 1",
        "Line Number 2, Given 0",
        "Wrong Kind 040229",
        "Show",
        "Receipt From 3, To 1, Code 1, Year 4, Of month 2, Day 29",
        "Post From 9, To 5, Asked 1",
        "Show",
        "Free From 1, Year 4, Of month 2, Day 29",
        "Show",
    ];
    play(rt, &lines)
}
