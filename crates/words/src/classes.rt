// Class words (document 01, "Class word"), and what a class tells.
ghost use Rattle.std.specs.Prelude.{◌≡◌, ◌*◌, ◌<◌, ◌≤◌, ◌^◌};
ghost use Rattle.theory.specs.Basics.{length};
ghost use Rattle.theory.specs.Partition.{degree};
ghost use Rattle.theory.specs.ClassWord.{class_word, class_of};
ghost use Rattle.theory.specs.ClassData.{class_divisor};
ghost use Rattle.theory.specs.ClassData.Periods.{multiplier as multiplierOf, period_from};
ghost use Rattle.theory.specs.Limits.{degree_limit};
ghost use Rattle.theory.specs.Bounds.Laws.{largest_limit};
ghost use Rattle.theory.specs.Refusals.{class_checks};
ghost use Rattle.theory.specs.Refusals.Laws.{WithinClass};
ghost use Rattle.words.specs.Answers.{Outcome, at_front, word_told, number_told, degree_told, count_told};
ghost use Rattle.words.specs.Private.Reading.{Measured, ListWithin};
ghost use Rattle.words.specs.Calls.{class_word_from, class_parts_into, class_degree};
ghost use Rattle.words.specs.Calls.{sign_of_class, size_of_class, PeriodOfClass};

use super::parts::Parts;
use super::{DEGREES, LIMIT, Measure, Refusal, lists, within};

// n! of each degree.
pub const FACTORIALS: [u64; DEGREES] = [
    1,
    1,
    2,
    6,
    24,
    120,
    720,
    5040,
    40320,
    362880,
    3628800,
    39916800,
    479001600,
    6227020800,
    87178291200,
    1307674368000,
    20922789888000,
];

// The class word of a partition within the limit.
fn bits(parts: &[u8]) -> u32
    requires { ListWithin largest_limit parts.now }
    ensures { result ≡ class_word parts.now }
{
    let mut left = 31u32;
    let mut bits = 0u32;
    for part in parts {
        left -= u32::from(*part);
        bits += 1u32 << left;
    }
    bits
}

// The class word of a part list. Refuses 3, then 4.
pub fn word(parts: &[u8]) -> Result<u32, Refusal>
    ensures { word_told result ≡ class_word_from degree_limit parts.now }
{
    lists::refusal(parts, Refusal::ClassTooLarge)?;
    Ok(bits(parts))
}

// The degree of a class word: the digit at which its last one stands.
fn last_one(word: u32) -> u32
    requires { word < 2 ^ 31 }
    ensures { result ≡ degree (class_of word) }
{
    if word == 0 {
        return 0;
    }
    31 - u32::trailing_zeros(word)
}

// The one reader of class words.
fn read(word: u32) -> Result<Measure, Refusal>
    ensures { Measured (class_checks degree_limit word) (class_of word) result }
{
    if 0x8000_0000 <= word {
        return Err(Refusal::BadClass);
    }
    let mut last = 31u32;
    let mut count = 0u32;
    for part in Parts::of(word) {
        if last < part {
            return Err(Refusal::BadClass);
        }
        last = part;
        count += 1;
    }
    let degree = last_one(word);
    if LIMIT < degree {
        return Err(Refusal::ClassTooLarge);
    }
    Ok(Measure { degree, count })
}

// The parts of a word to the front of a column that has room.
fn write_parts(word: u32, column: &mut [u8])
    requires { (word < 2 ^ 31) × (length (class_of word) ≤ length column.old) }
    ensures { column.new ≡ at_front (class_of word) column.old }
{
    for (i, part) in Parts::of(word).enumerate() {
        column[i] = part as u8;
    }
}

// The parts of a class word, longest first, to the front of a column; their count is the answer. Refuses 3, 4, then 14.
pub fn parts(word: u32, column: &mut [u8]) -> Result<usize, Refusal>
    ensures { Outcome (class_parts_into degree_limit word column.old) (count_told result) column.new }
{
    let count = within(read(word)?.count, column.len())?;
    write_parts(word, column);
    Ok(count)
}

// The degree n of a class word. Refuses 3, then 4.
pub fn degree(word: u32) -> Result<u32, Refusal>
    ensures { degree_told result ≡ class_degree degree_limit word }
{
    let measure = read(word)?;
    Ok(measure.degree)
}

// The sign of a class: a part p is p - 1 exchanges, so it is minus when the degree less the number of parts is odd.
// Refuses 3, then 4.
pub fn sign(word: u32) -> Result<i64, Refusal>
    ensures { number_told result ≡ sign_of_class degree_limit word }
{
    let measure = read(word)?;
    if (measure.degree - measure.count) % 2 == 1 {
        return Ok(-1);
    }
    Ok(1)
}

// The number by which n! is divided: each part, times how often it has occurred so far.
fn divisor(word: u32) -> u64
    requires { WithinClass largest_limit word }
    ensures { result ≡ class_divisor (class_of word) }
{
    let mut last = 0u32;
    let mut times = 0u32;
    let mut product = 1u64;
    for part in Parts::of(word) {
        if part == last {
            times += 1;
        } else {
            times = 1;
        }
        product *= (part * times) as u64;
        last = part;
    }
    product
}

// The number of elements of a class (document 000, formula 3). Refuses 3, then 4.
pub fn size(word: u32) -> Result<i64, Refusal>
    ensures { number_told result ≡ size_of_class degree_limit word }
{
    let measure = read(word)?;
    let degree = measure.degree as usize;
    Ok((FACTORIALS[degree] / divisor(word)) as i64)
}

// By how much a number has to be multiplied so that a part divides it: the first of 1, 2, .. that will do.
fn multiplier(number: u64, part: u64) -> u64
    requires { (0 < part) × (number * part < 2 ^ 63) }
    ensures { result ≡ multiplierOf number part }
{
    for by in 1..part {
        if number * by % part == 0 {
            return by;
        }
    }
    part
}

// The least positive number that every part of a class divides: what has been reached is multiplied by as little as
// will do for the next part. A part that equals the one before it divides that already, and is passed over.
fn least_multiple(word: u32) -> u64
    requires { WithinClass largest_limit word }
    ensures { result ≡ period_from 1 (class_of word) }
{
    let mut last = 0u32;
    let mut multiple = 1u64;
    for part in Parts::of(word) {
        if part != last {
            multiple *= multiplier(multiple, part as u64);
        }
        last = part;
    }
    multiple
}

// The period of a class: the least positive number that every part divides. Refuses 3, then 4.
pub fn period(word: u32) -> Result<i64, Refusal>
    ensures { PeriodOfClass degree_limit word (number_told result) }
{
    read(word)?;
    Ok(least_multiple(word) as i64)
}
