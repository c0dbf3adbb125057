// The C interface (include/iflughan.h): each exported function hands its arguments on and turns the answer into a struct of numbers,
// the refusal first. A refused call's struct has document 01's number and otherwise zeros, but for the log of append and of the prunes,
// which is the log given. Padding has a name and is 0. Here stand the structs; the functions stand in the files of `mod`.
#![tactic(auto)]

use seglog::Log;

mod deltas;
mod log;
mod names;
mod recover;

// A new log, a log after a prune (iflughan_logged).
#[repr(C)]
#[derive(Clone, Copy)]
pub struct Logged {
    pub refusal: u32,
    pub reserved: u32,
    pub log: Log,
}

// The record's id and the log (iflughan_appended).
#[repr(C)]
#[derive(Clone, Copy)]
pub struct Appended {
    pub refusal: u32,
    pub reserved: u32,
    pub id: u64,
    pub log: Log,
}

// The number of index rows written, and the log (iflughan_recovered).
#[repr(C)]
#[derive(Clone, Copy)]
pub struct Recovered {
    pub refusal: u32,
    pub reserved: u32,
    pub rows: u64,
    pub log: Log,
}

// A row's payload: its place in the area (iflughan_part).
#[repr(C)]
#[derive(Clone, Copy)]
pub struct Part {
    pub refusal: u32,
    pub reserved: u32,
    pub at: u64,
    pub length: u64,
}

// What is written: its length (iflughan_written).
#[repr(C)]
#[derive(Clone, Copy)]
pub struct Written {
    pub refusal: u32,
    pub reserved: u32,
    pub length: u64,
}

// What a name says: the segment's id (iflughan_parsed).
#[repr(C)]
#[derive(Clone, Copy)]
pub struct ParsedName {
    pub refusal: u32,
    pub id: u32,
}

// A row of a delta (iflughan_delta_row): present is 0 for an absent row, and 1 is written for a present one.
#[repr(C)]
#[derive(Clone, Copy)]
pub struct DeltaRow {
    pub key: [u8; 32],
    pub present: u8,
    pub reserved: [u8; 7],
    pub offset: u64,
    pub length: u32,
    pub reserved_too: u32,
}

// A delta's table (iflughan_delta): the first `count` rows.
#[repr(C)]
#[derive(Clone, Copy)]
pub struct Delta {
    pub count: u64,
    pub rows: [DeltaRow; 256],
}

// The bytes consumed, and the rows (iflughan_decoded).
#[repr(C)]
#[derive(Clone, Copy)]
pub struct DecodedDelta {
    pub refusal: u32,
    pub reserved: u32,
    pub consumed: u64,
    pub table: Delta,
}
