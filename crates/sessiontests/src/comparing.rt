// What is compared after a call: pages, and what the watches show.
use super::drawing::{PAGE, Strike};
use super::striking::New;
use characters::Watched;
use pages::Slip;
use std::iter;
use testing::numbers;

// Whether a page is another after a strike: the line is taken out, later lines moved down, the new ones come at the
// end, and zeros after them.
pub fn stepped(page: &[u64; PAGE], before: &[u64; PAGE], strike: Strike, new: &New) -> bool {
    let lines = before.iter().take(strike.slip.lines);
    let left = lines
        .enumerate()
        .filter(|(line, _)| *line != strike.line)
        .map(|(_, word)| word);
    let expected = left.chain(new.lines()).chain(iter::repeat(&0));
    page.iter().zip(expected).all(|(word, other)| word == other)
}

// What watches 3, 4 and 5 show.
#[derive(Clone, Copy, PartialEq, Eq)]
pub struct Shown {
    settled: i64,
    waiting: i64,
    steps: i64,
}

// The whole number that a watch shows; where it shows none, one larger than any sum of characters.
fn number(slip: Slip, page: &[u64], kind: u64) -> i64 {
    match characters::watches::watch(slip, page, kind, 0) {
        Watched::Whole(number) => number,
        Watched::Ratio(_) | Watched::Refused(_) => 0x1000_0000_0000_0000,
    }
}

pub fn watches(slip: Slip, page: &[u64]) -> Shown {
    Shown {
        settled: number(slip, page, 3),
        waiting: number(slip, page, 4),
        steps: number(slip, page, 5),
    }
}

// Whether the settled sum and the waiting characters are the character of the slip's words.
pub fn conserved(slip: Slip, page: &[u64]) -> bool {
    let sum = numbers::sum(number(slip, page, 3), number(slip, page, 4));
    characters::character(slip.shape, slip.class) == Ok(sum)
}
