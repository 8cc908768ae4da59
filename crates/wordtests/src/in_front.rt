// Words with ones in front (document 02, P6): a good word with one to as many ones in front as fit.
use super::columns::{Kind, written};
use testing::Tally;
use words::Good;

// Whether the calls answer a word with so many ones in front as they answer the good word of these rows.
fn agrees(good: u32, word: u32, ones: u32, parts: &[u8], n: u8) -> bool {
    let left = Good {
        word: good,
        dropped: ones,
    };
    let turned = words::shapes::conjugate(word);
    let rank = listing::shape_rank(word);
    (words::shapes::good(word) == Ok(left))
        & (words::shapes::degree(word) == Ok(u32::from(n)))
        & written(Kind::Shape, word, parts, parts.len())
        & turned.is_ok()
        & (turned == words::shapes::conjugate(good))
        & rank.is_ok()
        & (rank == listing::shape_rank(good))
}

// All digits move down by one and a one comes in front, until the last digit is a one, which would get lost. The empty
// shape has room for 31.
pub fn meet(found: Tally, good: u32, parts: &[u8], n: u8) -> Tally {
    let mut t = found;
    let mut word = good;
    for ones in 1..=31 {
        if word % 2 == 1 {
            break;
        }
        word = word / 2 + 0x4000_0000;
        t = t.add(agrees(good, word, ones, parts, n));
    }
    t
}
