// The calculator's calls for C and Rust: plain numbers in, plain numbers or a struct by value out. window/zembrusha.h
// declares them; tests/window holds the two against each other.

#![tactic(auto)]

pub mod gatherings;
mod handing;
pub mod plain;
pub mod runs;
pub mod singles;
pub mod texts;

// A word or a count, 0 when refused, with the refusal number beside it.
#[repr(C)]
#[derive(Clone, Copy)]
pub struct Number {
    pub refused: u32,
    pub number: u64,
}

// The good word of a shape word, and how many ones in front were dropped; both are 0 when refused.
#[repr(C)]
#[derive(Clone, Copy)]
pub struct Good {
    pub refused: u32,
    pub word: u32,
    pub dropped: u32,
}

// What refuses a list of words, 0 for nothing, and the index of the first bad word, from 0; 0 where no word is bad.
#[repr(C)]
#[derive(Clone, Copy)]
pub struct Listed {
    pub refused: u32,
    pub index: u64,
}

// A session's slip.
#[repr(C)]
#[derive(Clone, Copy)]
pub struct Slip {
    pub shape: u32,
    pub class_word: u32,
    pub settled: i64,
    pub lines: u64,
    pub steps: i64,
    pub mode: u32,
}

// A slip with the refusal number beside it.
#[repr(C)]
#[derive(Clone, Copy)]
pub struct Handed {
    pub refused: u32,
    pub slip: Slip,
}

// A slip with the refusal number beside it and, where that is 16, the text's line that is at fault, from 1.
#[repr(C)]
#[derive(Clone, Copy)]
pub struct Loaded {
    pub refused: u32,
    pub line: u64,
    pub slip: Slip,
}
