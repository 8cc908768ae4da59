// What comes of a line that is struck, found without the library: in words of 32 bits, of which bit 30 is digit 1.
use super::drawing::{PAGE, Strike};
use super::parts::front;
use pages::Slip;

// What must come of a strike: how many new lines there are, and their words; by default none.
#[derive(Clone, Copy, Default)]
pub struct New {
    pub count: usize,
    words: [u64; PAGE],
}

impl New {
    pub fn lines(&self) -> &[u64] {
        front(&self.words, self.count)
    }
}

// The sign digit.
const SIGN: u64 = 0x8000_0000;

// A class without a cycle, where it has such a cycle. A cycle starts in front or after a one, and the next one ends it.
// Cycles do not rise: where a one ends a cycle of this length, no earlier cycles add up to it.
fn without(class: u64, cycle: u64) -> Option<u64> {
    let length = cycle % 32;
    let ends = class | SIGN;
    let start = ((ends & (ends << length)) << 32).leading_zeros() % 64;
    let behind = 0x7FFF_FFFF >> start;
    let end = ((class & behind) << 32).leading_zeros();
    if (length != cycle) | (end != start + length as u32) {
        return None;
    }
    Some((class & !behind) | ((class << length) & behind))
}

// The line that a hook leaves, its class being given, where the shape has a zero there and a one so far behind it.
fn hook(word: u64, class: u64, zero: u64, length: u64) -> Option<u64> {
    let shape = (word >> 32) % 0x8000_0000;
    let one = zero >> (length % 32);
    if (one == 0) | (shape & (zero | one) != one) {
        return None;
    }
    let between = zero.wrapping_sub(one);
    let turns = u64::from((!shape & between).count_ones() % 2);
    let taken = shape ^ zero ^ one;
    let front = (!(taken << 33)).leading_zeros() % 64;
    Some((((word >> 63) ^ turns) << 63) | (((taken << front) % 0x8000_0000) << 32) | class)
}

// The new lines of a line, in hook order. Where no class is left every hook leaves the empty shape, and there are none.
fn new_lines(word: u64, class: u64, length: u64) -> New {
    let mut words = [0; PAGE];
    let mut count = 0usize;
    if class != 0 {
        let lines = (1..32).filter_map(|digit| hook(word, class, SIGN >> digit, length));
        for (place, line) in words.iter_mut().zip(lines) {
            *place = line;
            count = count.wrapping_add(1);
        }
    }
    New { count, words }
}

// What must come of a strike with a run's slip, or the number that must refuse it. A slip that counts other lines is
// not sound, since a line would be 0, or a word after the lines not 0, or there would be more lines than words.
pub fn struck(run: Slip, strike: Strike, page: &[u64; PAGE]) -> Result<New, u8> {
    let lines = strike.slip.lines;
    let line = strike.line;
    let word = page[line % PAGE];
    if lines != run.lines {
        return Err(7);
    }
    if lines <= line {
        return Err(8);
    }
    let class = without(word % 0x1_0000_0000, strike.cycle).ok_or(9)?;
    Ok(new_lines(word, class, strike.cycle))
}
