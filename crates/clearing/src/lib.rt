// What is lent to a session, 0 behind its lines: a page of words, and a column of coefficients. A call takes every
// input.

#![tactic(auto)]

ghost use Rattle.std.specs.Prelude.{◌≡◌, Bool, true, ◌++◌, ◌-◌, ◌↔◌};
ghost use Rattle.theory.specs.Basics.{length, take, replicate, every};

mod coefficients;
mod words;

// A kind of numbers that are lent.
pub trait Zero: Copy {
    ghost ZERO: { Self };

    const ZERO: Self;

    ghost is_zero: { Self → Bool };

    fn is_zero(self) -> bool
        ensures { result ≡ is_zero self };

    // What is found to be 0 is what is written.
    ghost only: { (x : Self) → is_zero x ≡ true ↔ x ≡ ZERO };

    // A copy can be made, and is the number itself.
    ghost copied: { (x : Self) → Self.is_infallible x };

    ghost same: { (x y : Self) → Self.is_clone x y → y ≡ x };
}

// All from a place on becomes 0 (document 01, "Slip and page": zeros after the lines).
pub fn clear<T: Zero>(lent: &mut [T], from: usize)
    ensures { lent.new ≡ take from lent.old ++ replicate (length lent.old - from) T.ZERO }
{
    if from < lent.len() {
        lent[from..].fill(T::ZERO);
    }
}

// As many numbers as are read in one go.
const BLOCK: usize = 64;

// Whether a block is all 0. It is read to its end, which lets several be compared at once: `all`, which stops at the
// first that isn't 0, takes three times as long on a whole page of zeros.
fn block_is_clear<T: Zero>(block: &[T]) -> bool
    ensures { result ≡ every T.is_zero block.now }
{
    block.iter().fold(true, |clear, x| clear & x.is_zero())
}

// Whether all is 0 (document 01, "every word after the lines is 0"; document 02, P7, of coefficients). No more is read
// than the first block that isn't.
pub fn is_clear<T: Zero>(lent: &[T]) -> bool
    ensures { result ≡ every T.is_zero lent.now }
{
    for block in lent.chunks(BLOCK) {
        if !block_is_clear(block) {
            return false;
        }
    }
    true
}
