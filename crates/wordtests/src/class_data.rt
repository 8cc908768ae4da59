// What a class tells, against its parts.
use testing::numbers::natural;

// Whether the number of even parts is even.
fn is_plus(parts: &[u8]) -> bool {
    parts.iter().filter(|part| **part % 2 == 0).count() % 2 == 0
}

// Whether every cycle of a class is back where it began when an element has been repeated so many times.
fn is_back(parts: &[u8], times: u64) -> bool {
    parts
        .iter()
        .all(|part| *part == 0 || times % u64::from(*part) == 0)
}

// After how many times an element of a class first is back, tried one time after the other; 0 if not within 1,000.
fn first_back(parts: &[u8]) -> u64 {
    (1..=1_000)
        .find(|times| is_back(parts, *times))
        .unwrap_or(0)
}

pub fn sign_agrees(word: u32, parts: &[u8]) -> bool {
    words::classes::sign(word) == Ok(if is_plus(parts) { 1 } else { -1 })
}

pub fn period_agrees(word: u32, parts: &[u8]) -> bool {
    words::classes::period(word).is_ok_and(|told| natural(told) == first_back(parts))
}

pub fn size(word: u32) -> u64 {
    natural(words::classes::size(word).unwrap_or(0))
}
