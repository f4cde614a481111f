// The listing's answers, and tables that are not well formed.
use crate::play::play;
use std::io;

// 7, 32 and 8 octets: `rows 1`, the message and its recipient, each with a line feed; 40 in row 1.
pub fn rooms(rt: &impl Print) -> io::Result<()> {
    let lines = [
        "Line Number 0",
        "Line Number 0, Given 7",
        "Line Number 0, Given 6",
        "Line Number 0, Given 0",
        "Line Number 1",
        "Line Number 1, Given 0",
        "Post From 207, To 3, Asked 1",
        "Line Number 1, Given 40",
        "Line Number 1, Given 39",
        "Line Number 1, Given 0",
        "Line Number 2, Given 0",
        "Line Number 33",
        "Line Number 999999999",
        "Line Number 0, Given 7",
        "Wrong Kind 1",
        "Line Number 1, Given 0",
        "Line Number 0",
        "Line Number 2",
    ];
    play(rt, &lines)
}

// A table that is wrong is refused before anything else, by every call.
pub fn wrong_count(rt: &impl Print) -> io::Result<()> {
    let lines = [
        "Post From 1, To 3, Asked 1",
        "Wrong Kind 1",
        "Post From 2, To 3, Asked 1",
        "Post From 2, To 3, Asked 1, Minute 75",
        "Post From 2, Number 2",
        "Post To 3, Asked 1",
        "Receipt From 3, To 1, Code 1",
        "Receipt From 3, To 1, Code 9",
        "Free From 1",
        "Free From",
        "Line Number 0, Given 0",
    ];
    play(rt, &lines)
}

// Two rows, of which the first has two recipients and asks for the machine acknowledgement and the reply.
pub fn wrong_rows(rt: &impl Print) -> io::Result<()> {
    let lines = [
        "Post From 1, To 3, To 4, Asked 5",
        "Post From 2, To 3, Asked 7",
        "Try Kind 1, a count over the rows, From 9",
        "Try Kind 2, a row twice, From 9",
        "Try Kind 3, rows out of order, From 9",
        "Try Kind 4, a key with an illegal minute, From 9",
        "Try Kind 5, a key without an address, From 9",
        "Try Kind 6, nothing asked, From 9",
        "Try Kind 7, no recipient, From 9",
        "Try Kind 8, too many recipients, From 9",
        "Try Kind 9, a recipient twice, From 9",
        "Try Kind 10, recipients out of order, From 9",
        "Show",
    ];
    play(rt, &lines)?;
    let lines = [
        "Post From 1, To 3, To 4, Asked 5",
        "Post From 2, To 3, Asked 7",
        "Try Kind 11, a code that does not fit, From 9",
        "Try Kind 12, a two and an open request, From 9",
        "Try Kind 13, a code where nothing is asked, From 9",
        "Try Kind 14, a code at the reply, From 9",
        "Try Kind 15, a code out of range, From 9",
        "Try Kind 16, a recipient without an address, From 9",
        "Try Kind 17, a recipient with an illegal address, From 9",
        "Try Kind 18, an unused row, From 9, To 5, Asked 1",
        "Show",
    ];
    play(rt, &lines)
}
