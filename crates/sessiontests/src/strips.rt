// Strips of a run: what is drawn of them, and what is compared.
use super::drawing::{PAGE, below};

// How many words a strip has: more than a preview can take.
pub const STRIP: usize = 24;

// The words lent of a strip, for so many new lines: mostly all or just enough; else one too few, none, or any number.
pub fn room(count: usize, word: u64) -> usize {
    match word % 32 {
        0 => count.wrapping_sub(1),
        1 => 0,
        2 => below(word >> 5, STRIP + 1) as usize,
        3..=12 => count,
        13..=22 => PAGE,
        _ => STRIP,
    }
}

// The strip handed to a commit of so many new lines: mostly as the preview left it; else as it was before, or with a
// bit of its front turned, or with two neighbours of its front exchanged.
pub fn handed(left: [u64; STRIP], before: [u64; STRIP], count: usize, word: u64) -> [u64; STRIP] {
    let mut strip = left;
    let drawn = below(word >> 4, count);
    let place = drawn as usize % STRIP;
    let next = below(u64::from(drawn) + 1, count) as usize % STRIP;
    match word % 16 {
        0 => strip = before,
        1 => strip[place] ^= 1 << ((word >> 16) % 64),
        2 => strip.swap(place, next),
        _ => {}
    }
    strip
}

// Whether a strip has these lines in front, and behind them what another strip has.
pub fn holds(strip: &[u64; STRIP], lines: &[u64], other: &[u64; STRIP]) -> bool {
    let mut behind = strip.iter().zip(other).skip(lines.len());
    strip.starts_with(lines) & behind.all(|(word, before)| word == before)
}
