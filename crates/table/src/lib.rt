// The table of pending messages, document 01's board: a row for each message that still owes answers.
#![tactic(auto)]

use header::{Address, Requests};
use order::Key;

pub mod codes;

// A recipient of a row, with the code that settled each request; 0 where there is none.
#[repr(C)]
#[derive(Clone, Copy)]
pub struct Recipient {
    pub address: Address,
    pub machine: u32,
    pub acknowledge: u32,
    pub reply: u32,
}

// A message that was posted: its key, the asked requests, and its recipients in address order.
#[repr(C)]
#[derive(Clone, Copy)]
pub struct Row {
    pub key: Key,
    pub asked: Requests,
    pub recipients: [Recipient; 16],
    pub count: u32,
}

// The rows in key order. Cells beyond a count are unused and carry no meaning.
#[repr(C)]
#[derive(Clone, Copy)]
pub struct Table {
    pub rows: [Row; 32],
    pub count: u32,
}

// Where a row or a recipient stands, or where it would stand while it is not held, as a binary search answers.
pub type Position = Result<usize, usize>;
