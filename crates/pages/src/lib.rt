// Slips, pages and waiting lines (document 01, "Slip and page", "Sound slip and page"): how a page's word is read and
// written, and whether slip and page are sound, in either mode. Every call takes every input.

#![tactic(auto)]

mod degrees;
mod differences;
pub mod gathering;
mod paying;
pub mod soundness;
mod tables;

// The most words of a page.
pub const PAGE_LIMIT: usize = 4096;

// The numbers of the modes on a slip.
pub const PLAIN: u32 = 0;

pub const GATHERED: u32 = 1;

// A session's slip: the shape and the class asked for, the settled sum, the number of lines that wait, the steps, and
// the mode.
#[derive(Clone, Copy, Debug, PartialEq, Eq)]
pub struct Slip {
    pub shape: u32,
    pub class: u32,
    pub settled: i64,
    pub lines: usize,
    pub steps: i64,
    pub mode: u32,
}

// A slip of zeros.
pub const BLANK: Slip = Slip {
    shape: 0,
    class: 0,
    settled: 0,
    lines: 0,
    steps: 0,
    mode: PLAIN,
};

// What is left of n! and S(n), n being the degree that a slip asks for. Where one does not suffice there is none.
#[derive(Clone, Copy, Debug, PartialEq, Eq)]
pub struct Budget {
    pub degree: u32,
    pub value: u64,
    pub span: u64,
}
