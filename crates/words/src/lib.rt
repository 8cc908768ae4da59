// Partitions as words of 32 bits: part lists and words turned into each other by Comét's two methods, and what a word
// tells. Every call takes every input; a refused call says why, and writes nothing.

#![tactic(auto)]

ghost use Rattle.std.specs.Prelude.{◌≡◌, ◌<◌, ◌≤◌, MatchResult};
ghost use Rattle.words.specs.declared.refusal.Refusal.TheVariants.{ColumnTooShort};

pub mod classes;
mod lists;
pub mod parts;
pub mod refusal;
pub mod shapes;

pub use refusal::Refusal;

// The good word of a shape word, and how many ones in front were dropped.
#[derive(Clone, Copy, Debug, PartialEq, Eq)]
pub struct Good {
    pub word: u32,
    pub dropped: u32,
}

// What the reader of a shape word finds: its good word, how many ones in front were dropped, and its degree.
#[derive(Clone, Copy, Debug, PartialEq, Eq)]
pub struct Shape {
    pub word: u32,
    pub dropped: u32,
    pub degree: u32,
}

// What is told of the parts of a word: its degree and how many parts it has.
#[derive(Clone, Copy)]
struct Measure {
    degree: u32,
    count: u32,
}

// The greatest degree.
pub const LIMIT: u32 = 16;

// Good shape words are the numbers below this.
pub const SHAPE_WORDS: u32 = 0x4000_0000;

// How many degrees there are.
pub const DEGREES: usize = LIMIT as usize + 1;

// The count of parts, where so many have room. Refuses 14.
fn within(count: u32, room: usize) -> Result<usize, Refusal>
    ensures { MatchResult result (λ n. (n ≡ count) × (count ≤ room)) (λ e. (e ≡ ColumnTooShort) × (room < count)) }
{
    let count = count as usize;
    if room < count {
        return Err(Refusal::ColumnTooShort);
    }
    Ok(count)
}
