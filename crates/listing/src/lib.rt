// The listing of partitions (document 01, "Listing"): a degree and a rank give a partition, as either word, and either
// word gives its rank. Every call takes every input.

#![tactic(auto)]

ghost use Rattle.std.specs.Prelude.{◌≡◌, ◌==◌, position};
ghost use Rattle.theory.specs.Partition.{degree as degree_of};
ghost use Rattle.theory.specs.ShapeWord.{shape_of};
ghost use Rattle.theory.specs.Listing.{rank as rank_of};
ghost use Rattle.theory.specs.Limits.{degree_limit};
ghost use Rattle.theory.specs.Refusals.Laws.{Within};
ghost use Rattle.words.specs.Answers.{word_told, number_told};
ghost use Rattle.listing.specs.Calls.{words_within, section_told, section_of, shape_at, class_at};
ghost use Rattle.listing.specs.Calls.{shape_rank, class_rank};
ghost use Rattle.listing.specs.Private.Tables.{shape_words};

use tables::{COUNTS, STARTS, WORDS};
use words::Refusal;

mod tables;

// How many partitions the degrees 0 to 16 have in all.
pub const WORD_COUNT: usize = 915;

// How many partitions one degree has at most.
pub const MOST_PARTITIONS: usize = 231;

// The words of one degree among those of all degrees.
#[derive(Clone, Copy, Debug, PartialEq, Eq)]
pub struct Span {
    pub start: usize,
    pub count: usize,
}

// The shape words of the degrees 0 to 16, degree by degree, each degree in listing order.
pub fn shape_words() -> [u32; WORD_COUNT]
    ensures { result ≡ words_within degree_limit }
{
    WORDS
}

// Where the words of a degree start among them, and how many they are. Refuses 12.
pub fn section(degree: u32) -> Result<Span, Refusal>
    ensures { section_told result ≡ section_of degree_limit degree }
{
    if words::LIMIT < degree {
        return Err(Refusal::DegreeTooLarge);
    }
    let n = degree as usize;
    Ok(Span {
        start: STARTS[n],
        count: COUNTS[n],
    })
}

// The shape word of a rank. Refuses 12, then 11.
pub fn shape_at(degree: u32, rank: u32) -> Result<u32, Refusal>
    ensures { word_told result ≡ shape_at degree_limit degree rank }
{
    let section = section(degree)?;
    if section.count <= rank as usize {
        return Err(Refusal::NoSuchRank);
    }
    let words = shape_words();
    let i = section.start + rank as usize;
    Ok(words[i])
}

// The class word of a rank. Refuses 12, then 11.
pub fn class_at(degree: u32, rank: u32) -> Result<u32, Refusal>
    ensures { word_told result ≡ class_at degree_limit degree rank }
{
    let shape = shape_at(degree, rank)?;
    let mut parts = [0u8; words::LIMIT as usize];
    let count = words::shapes::parts(shape, &mut parts).unwrap();
    words::classes::word(&parts[..count])
}

// Where a word stands first among others.
fn index_of(words: &[u32], word: u32) -> Option<usize>
    ensures { result ≡ position (λ other. other == word) words.now }
{
    words.iter().position(|other| *other == word)
}

// The rank of a good shape word of this degree, searched for among the words of its degree.
fn search(words: &[u32], word: u32, degree: u32) -> u32
    requires { (words.now ≡ shape_words) × Within degree_limit word × (degree ≡ degree_of (shape_of word)) }
    ensures { result ≡ rank_of (shape_of word) }
{
    let section = section(degree).unwrap();
    let of_degree = &words[section.start..section.start + section.count];
    match index_of(of_degree, word) {
        Some(rank) => rank as u32,
        None => 0, // each word stands among those of its degree
    }
}

// The rank of a shape. Refuses 1, then 2.
pub fn shape_rank(word: u32) -> Result<i64, Refusal>
    ensures { number_told result ≡ shape_rank degree_limit word }
{
    let shape = words::shapes::read(word)?;
    let rank = search(&shape_words(), shape.word, shape.degree);
    Ok(i64::from(rank))
}

// The rank of a class. Refuses 3, then 4.
pub fn class_rank(word: u32) -> Result<i64, Refusal>
    ensures { number_told result ≡ class_rank degree_limit word }
{
    let mut parts = [0u8; words::LIMIT as usize];
    let count = words::classes::parts(word, &mut parts)?;
    let shape = words::shapes::word(&parts[..count]).unwrap();
    shape_rank(shape)
}
