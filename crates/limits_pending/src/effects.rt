// What receipts settle, the order of rows and recipients, and the room for 32 rows.
use crate::play::play;
use std::io;

// Codes 1 and 3 and one of 4, 5 and 6 answer one request each; none of them is replaced.
pub fn codes(rt: &impl Print) -> io::Result<()> {
    let lines = [
        "Post From 207, To 3, To 4, Asked 7",
        "Receipt From 3, To 207, Code 1",
        "Receipt From 3, To 207, Code 1 again",
        "Show",
        "Receipt From 3, To 207, Code 3",
        "Receipt From 3, To 207, Code 5",
        "Show",
        "Receipt From 3, To 207, Code 3",
        "Receipt From 3, To 207, Code 4",
        "Receipt From 3, To 207, Code 5",
        "Receipt From 3, To 207, Code 6",
        "Receipt From 3, To 207, Code 2",
        "Receipt From 4, To 207, Code 6",
        "Show",
    ];
    play(rt, &lines)?;
    let lines = [
        "Post From 207, To 3, Asked 4",
        "Receipt From 3, To 207, Code 1",
        "Receipt From 3, To 207, Code 3",
        "Receipt From 3, To 207, Code 4",
        "Receipt From 3, To 207, Code 5",
        "Receipt From 3, To 207, Code 2",
        "Show",
    ];
    play(rt, &lines)
}

// Code 2 answers all that is open, at this answerer and in this row.
pub fn code_two(rt: &impl Print) -> io::Result<()> {
    let lines = [
        "Post From 207, To 3, To 4, Asked 7",
        "Post From 207, To 3, Asked 5, eXtension 0",
        "Receipt From 3, To 207, Code 3",
        "Receipt From 3, To 207, Code 2",
        "Show",
        "Receipt From 3, To 207, Code 2",
        "Receipt From 3, To 207, Code 1",
        "Receipt From 4, To 207, Code 2",
        "Receipt From 4, To 207, Code 5",
        "Receipt From 3, To 207, Code 2, eXtension 0",
        "Show",
    ];
    play(rt, &lines)?;
    let lines = [
        "Post From 207, To 3, Asked 2",
        "Receipt From 3, To 207, Code 1",
        "Receipt From 3, To 207, Code 6",
        "Receipt From 3, To 207, Code 3",
        "Receipt From 3, To 207, Code 3",
        "Show",
    ];
    play(rt, &lines)
}

// URNs before names, a shorter name before one that it begins, and each address once.
pub fn recipients(rt: &impl Print) -> io::Result<()> {
    let lines = [
        "Post From 207, To (B), To 16777215, To (AB), To 3, To (A), To 20, To 3, To (B), \
         To 0, Asked 6",
        "Receipt From (B), To 207, Code 3",
        "Receipt From 0, To 207, Code 6",
        "Show",
    ];
    play(rt, &lines)?;
    let lines = [
        "Post From (OPS 'A'), To (a/b), To (^), To (~~), To (/), To ('), To (' ), Asked 1",
        "Post From (OPS 'A'), To (a/b), To (^), To (/), To ('), To (' ), To ( !}|), Asked 1",
        "Receipt From (a/b), To (OPS 'A'), Code 1",
        "Receipt From (a/B), To (OPS 'A'), Code 1",
        "Show",
    ];
    play(rt, &lines)
}

// Rows stand by originator, then DTG, then extension, of which none comes first.
pub fn keys(rt: &impl Print) -> io::Result<()> {
    let lines = [
        "Post From (AB), To 3, Asked 1",
        "Post From (A), To 3, Asked 2",
        "Post From 208, To 3, Asked 4",
        "Post From (B), To 3, Asked 3",
        "Post From 1000, To 3, Asked 5",
        "Post From 0, To 3, Asked 6",
        "Post From (207), To 3, Asked 7",
        "Show",
    ];
    play(rt, &lines)?;
    let lines = [
        "Post From 1, To 3, Asked 1, eXtension 10",
        "Post From 1, To 3, Asked 1, eXtension 9",
        "Post From 1, To 3, Asked 1",
        "Post From 1, To 3, Asked 1, eXtension 0",
        "Post From 1, To 3, Asked 1, eXtension 4095",
        "Post From 1, To 3, Asked 1, Second 54",
        "Post From 1, To 3, Asked 1, Minute 9, Second 59",
        "Post From 1, To 3, Asked 1, Hour 0",
        "Post From 1, To 3, Asked 1, Day 31, Hour 1",
        "Post From 1, To 3, Asked 1, Of month 12",
        "Post From 1, To 3, Asked 1, Of month 1, Day 1",
        "Post From 1, To 3, Asked 1, Year 95",
        "Post From 1, To 3, Asked 1, Year 0",
        "Post From 1, To 3, Asked 1, Year 99",
        "Post From 1, To 3, Asked 1, eXtension 0",
        "Free From 1, eXtension 0",
        "Receipt From 3, To 1, Code 1",
        "Show",
    ];
    play(rt, &lines)
}

// Names of 63 and 64 characters, and one that is too long.
pub fn names(rt: &impl Print) -> io::Result<()> {
    let lines = [
        "Post From (0123456789012345678901234567890123456789012345678901234567890123), \
         To (012345678901234567890123456789012345678901234567890123456789012), \
         To (0123456789012345678901234567890123456789012345678901234567890123), Asked 1",
        "Post From (012345678901234567890123456789012345678901234567890123456789012), \
         To 3, Asked 1",
        "Post From (01234567890123456789012345678901234567890123456789012345678901234), \
         To 3, Asked 1",
        "Receipt From (0123456789012345678901234567890123456789012345678901234567890123), \
         To (0123456789012345678901234567890123456789012345678901234567890123), Code 1",
        "Show",
    ];
    play(rt, &lines)
}

// The 33rd posting finds no room. A held key is found first, a receipt needs no room, and a released row's
// room is used again.
pub fn full(rt: &impl Print) -> io::Result<()> {
    let lines = [
        "Many From 207, To 3, Asked 1",
        "Post From 1, To 3, Asked 1",
        "Post From 207, To 3, Asked 1, Second 5",
        "Post From 1, To 3",
        "Receipt From 3, To 207, Code 1, Second 31",
        "Free From 207, Second 32",
        "Free From 207, Second 16",
        "Post From 1, To 4, Asked 2",
        "Post From 2, To 3, Asked 1",
        "Show",
        "Line Number 32",
        "Line Number 33",
        "Line Number 34",
        "Free From 207, Second 0",
        "Line Number 0",
        "Line Number 32",
        "Post From (Z), To 3, Asked 1",
        "Line Number 32",
    ];
    play(rt, &lines)
}
