// What is read off a text, whatever its form: whoever asks compares the text with that of what was read.

#![tactic(auto)]

ghost use Rattle.std.specs.Prelude.{◌≡◌, map, [], ◌∷◌, ◌+◌, min};
ghost use Rattle.theory.specs.Basics.{length, drop};
ghost use Rattle.text.specs.Wrote.{most, Wrote};
ghost use Rattle.textreading.specs.Reading.{before, number_in, kept, list_in, lines_of, first_line};
ghost use Rattle.textreading.specs.Reading.{step as step_of, small as smallOf};

use text::writing;

// Where a byte stands first behind the first `at`, and the end where it does not.
pub fn find(byte: u8, text: &[u8], at: usize) -> usize
    ensures { result ≡ at + length (before byte (drop at text.now)) }
{
    if text.len() <= at {
        return at;
    }
    match text[at..].iter().position(|other| *other == byte) {
        Some(passed) => at + passed,
        None => text.len(),
    }
}

// A number with a byte behind it: a digit is its last digit, and any other byte says nothing.
fn step(number: u64, byte: u8) -> u64
    ensures { result ≡ min (step_of number byte) most }
{
    match byte {
        b'0'..=b'9' => number
            .saturating_mul(10)
            .saturating_add(u64::from(byte - b'0')),
        _ => number,
    }
}

// The number that the digits in a text give, and the greatest of 64 bits for any greater one.
pub fn number_in(text: &[u8]) -> u64
    ensures { result ≡ min (number_in text.now) most }
{
    text.iter().fold(0, |number, byte| step(number, *byte))
}

// A number behind those that were read, unless it is 0. A byte has 255 of a greater one.
fn keep(number: u64, column: &mut [u8], at: usize) -> usize
    ensures { Wrote (map smallOf (kept (number ∷ []))) at column.old result column.new }
{
    if number == 0 {
        return at;
    }
    writing::byte(number.min(255) as u8, column, at)
}

// The numbers that commas set apart in a text, zeros left out, at the front of a lent column; their count is the
// answer. A number above 255 is 255 there, and those that have no room are left out.
pub fn list_in(text: &[u8], column: &mut [u8]) -> usize
    ensures { Wrote (map smallOf (list_in text.now)) 0 column.old result column.new }
{
    let mut number = 0;
    let mut count = 0;
    for byte in text {
        if *byte == b',' {
            count = keep(number, column, count);
            number = 0;
        } else {
            number = step(number, *byte);
        }
    }
    keep(number, column, count)
}

// Where the line ends that starts behind the first `at` bytes.
pub fn line_end(text: &[u8], at: usize) -> usize
    ensures { result ≡ at + length (first_line (drop at text.now)) }
{
    let place = find(b'\n', text, at);
    if place < text.len() { place + 1 } else { place }
}

// How many lines a text has: its newlines, and one more where it does not end in one. (By `filter` and `count` this takes
// half as long again.)
pub fn line_count(text: &[u8]) -> usize
    ensures { result ≡ length (lines_of text.now) }
{
    let mut count = 0;
    for byte in text {
        if *byte == b'\n' {
            count += 1;
        }
    }
    match text.last() {
        Some(byte) if *byte != b'\n' => count + 1,
        _ => count,
    }
}
