// Shape words (document 01, "Shape word" and "Conjugate"; document 02, P6: ones in front are dropped).
ghost use Rattle.std.specs.Prelude.{◌≡◌, ◌<◌, ◌≤◌, ◌^◌};
ghost use Rattle.theory.specs.Basics.{length};
ghost use Rattle.theory.specs.Partition.{degree};
ghost use Rattle.theory.specs.ShapeWord.{shape_word, shape_of, conjugate_word, dropped};
ghost use Rattle.theory.specs.Limits.{degree_limit};
ghost use Rattle.theory.specs.Bounds.Laws.{largest_limit};
ghost use Rattle.theory.specs.Refusals.{shape_checks};
ghost use Rattle.words.specs.Answers.{Outcome, at_front, word_told, degree_told, count_told, good_told, shape_told};
ghost use Rattle.words.specs.Private.Reading.{Measured, ListWithin};
ghost use Rattle.words.specs.Calls.{shape_word_from, shape_reading, good_shape_word, shape_parts_into, shape_degree};
ghost use Rattle.words.specs.Calls.{conjugate_shape};

use super::parts::Parts;
use super::{Good, LIMIT, Measure, Refusal, Shape, lists, within};

// The shape word of a partition within the limit.
fn bits(parts: &[u8]) -> u32
    requires { ListWithin largest_limit parts.now }
    ensures { result ≡ shape_word parts.now }
{
    let mut left = 31u32;
    let mut bits = 0u32;
    for (i, part) in parts.iter().enumerate() {
        let more = u32::from(*part) - lists::part_at(parts, i + 1);
        let top = left - 1;
        left = top - more;
        bits += (1u32 << top) - (1u32 << left);
    }
    bits
}

// The shape word of a part list. Refuses 3, then 2.
pub fn word(parts: &[u8]) -> Result<u32, Refusal>
    ensures { word_told result ≡ shape_word_from degree_limit parts.now }
{
    lists::refusal(parts, Refusal::ShapeTooLarge)?;
    Ok(bits(parts))
}

// The degree of a shape word: each one is paired with the zeros before it.
fn pairs(word: u32) -> u32
    requires { word < 2 ^ 31 }
    ensures { result ≡ degree (shape_of word) }
{
    let mut zeros = 0u32;
    let mut pairs = 0u32;
    for part in Parts::of(word) {
        zeros += part - 1;
        pairs += zeros;
    }
    pairs
}

// How many rows a shape word has: the digits up to its last one that are zeros.
fn row_count(word: u32) -> u32
    requires { word < 2 ^ 31 }
    ensures { result ≡ length (shape_of word) }
{
    if word == 0 {
        return 0;
    }
    31 - u32::trailing_zeros(word) - u32::count_ones(word)
}

// How many ones a word's digits begin with.
fn ones_in_front(word: u32) -> u32
    requires { word < 2 ^ 31 }
    ensures { result ≡ dropped word }
{
    u32::leading_zeros(!(word << 1))
}

// The one reader of shape words: it drops the ones in front and gives the good word that is left, for whoever hands it
// on or looks it up. Degree and rows, which they do not change, are taken from the word as it came. Refuses 1, then 2.
pub fn read(word: u32) -> Result<Shape, Refusal>
    ensures { shape_told result ≡ shape_reading degree_limit word }
{
    if 0x8000_0000 <= word {
        return Err(Refusal::BadShape);
    }
    let degree = pairs(word);
    if LIMIT < degree {
        return Err(Refusal::ShapeTooLarge);
    }
    let dropped = ones_in_front(word);
    let good = (word << dropped) % 0x8000_0000;
    Ok(Shape {
        word: good,
        dropped,
        degree,
    })
}

// The good word of a shape word, and how many ones in front were dropped. Refuses 1, then 2.
pub fn good(word: u32) -> Result<Good, Refusal>
    ensures { good_told result ≡ good_shape_word degree_limit word }
{
    let shape = read(word)?;
    Ok(Good {
        word: shape.word,
        dropped: shape.dropped,
    })
}

// What is told of the rows of a shape word, which ones in front do not change.
fn measure(word: u32) -> Result<Measure, Refusal>
    ensures { Measured (shape_checks degree_limit word) (shape_of word) result }
{
    let shape = read(word)?;
    Ok(Measure {
        degree: shape.degree,
        count: row_count(word),
    })
}

// The rows of a word to the front of a column that has room.
fn write_rows(word: u32, column: &mut [u8])
    requires { (word < 2 ^ 31) × (length (shape_of word) ≤ length column.old) }
    ensures { column.new ≡ at_front (shape_of word) column.old }
{
    let mut length = u32::count_ones(word);
    let mut i = 0;
    for left in (u32::trailing_zeros(word)..31).rev() {
        if (word >> left) % 2 == 0 {
            column[i] = length as u8;
            i += 1;
        } else {
            length -= 1;
        }
    }
}

// The rows of a shape word, longest first, to the front of a column; their count is the answer. Refuses 1, 2, then 14.
pub fn parts(word: u32, column: &mut [u8]) -> Result<usize, Refusal>
    ensures { Outcome (shape_parts_into degree_limit word column.old) (count_told result) column.new }
{
    let count = within(measure(word)?.count, column.len())?;
    write_rows(word, column);
    Ok(count)
}

// The degree n of a shape word. Refuses 1, then 2.
pub fn degree(word: u32) -> Result<u32, Refusal>
    ensures { degree_told result ≡ shape_degree degree_limit word }
{
    let shape = read(word)?;
    Ok(shape.degree)
}

// The digits up to the last one, in reverse order and complemented.
fn flipped(word: u32) -> u32
    requires { word < 2 ^ 31 }
    ensures { result ≡ conjugate_word word }
{
    if word == 0 {
        return 0;
    }
    let after = u32::trailing_zeros(word);
    let mut rest = word >> after;
    let mut out = 0u32;
    for left in (after..31).rev() {
        out += (1 - rest % 2) << left;
        rest /= 2;
    }
    out
}

// The shape word of the conjugate shape. Refuses 1, then 2.
pub fn conjugate(word: u32) -> Result<u32, Refusal>
    ensures { word_told result ≡ conjugate_shape degree_limit word }
{
    let shape = read(word)?;
    Ok(flipped(shape.word))
}
