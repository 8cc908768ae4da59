// What is drawn at random for a call, from one word of a fixed generator.
use pages::Slip;

// How many words a page has.
pub const PAGE: usize = 16;

// The generator's first word.
pub const FIRST: u64 = 0x9E37_79B9_7F4A_7C15;

// Its next word: three shifts and three exclusive ors (xorshift64).
pub fn next(word: u64) -> u64 {
    let x = word ^ (word << 13);
    let x = x ^ (x >> 7);
    x ^ (x << 17)
}

// A word brought below a bound, and 0 where nothing is below it.
pub fn below(word: u64, bound: usize) -> u32 {
    if bound == 0 {
        0
    } else {
        ((word % bound as u64) % 0x1_0000_0000) as u32
    }
}

// A number in which now and then one bit is turned, so that it is wrong.
fn turned(number: u32, word: u64) -> u32 {
    number ^ (u32::from(word % 16 == 0) << ((word / 16) % 32))
}

// The words of an opening, a shape's and a class's. A bit is turned now and then.
pub fn asked_words(word: u64) -> (u32, u32) {
    let degree = below(word, 17);
    let count = listing::section(degree).map_or(0, |section| section.count);
    let shape = listing::shape_at(degree, below(word >> 8, count)).unwrap_or(0);
    let class = listing::class_at(degree, below(word >> 28, count)).unwrap_or(0);
    (turned(shape, word >> 20), turned(class, word >> 44))
}

// The slip of a step or a save: the one at hand, in which a bit of its lines is turned now and then.
pub fn asked(slip: Slip, word: u64) -> Slip {
    Slip {
        lines: slip.lines ^ turned(0, word >> 48) as usize,
        ..slip
    }
}

// A shape word with a one in front, where `more` says so and neither digit nor sign gets lost.
fn with_a_one(shape: u32, more: bool) -> u32 {
    if more & (shape % 2 == 0) & (shape < 0x8000_0000) {
        shape / 2 + 0x4000_0000
    } else {
        shape
    }
}

// A shape word with none to three ones more in front.
pub fn in_front(shape: u32, word: u64) -> u32 {
    let one = with_a_one(shape, (word >> 52) % 4 == 0);
    let two = with_a_one(one, (word >> 54) % 4 == 0);
    with_a_one(two, (word >> 56) % 2 == 0)
}

// A slip, one of its lines, and a cycle to be struck from it.
#[derive(Clone, Copy)]
pub struct Strike {
    pub slip: Slip,
    pub line: usize,
    pub cycle: u64,
}

// What a step strikes: a drawn line, mostly by the longest cycle of its class, else by what is left of a cycle, with a
// bit turned now and then.
pub fn drawn(slip: Slip, word: u64, page: &[u64; PAGE]) -> Strike {
    let line = turned(below(word >> 8, slip.lines), word >> 20) as usize;
    let class = page[line % PAGE] << (32 + ((word >> 28) & (word >> 32) & (word >> 36)) % 4);
    Strike {
        slip,
        line,
        cycle: u64::from(turned(class.leading_zeros(), word >> 40)),
    }
}
