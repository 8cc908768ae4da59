// Part lists, as both kinds of word read them. A list may be as long as memory.
ghost use Rattle.std.specs.Prelude.{◌≡◌, suc, min};
ghost use Rattle.theory.specs.Basics.{get_or};
ghost use Rattle.theory.specs.Partition.{is_partition, degree};
ghost use Rattle.theory.specs.Refusals.{first_of};
ghost use Rattle.theory.specs.Limits.{degree_limit};
ghost use Rattle.words.specs.Answers.{number_of, refusal_of};
ghost use Rattle.words.specs.Private.Reading.{list_checks};

use super::{LIMIT, Refusal};

// A part, and 0 past the end.
pub fn part_at(parts: &[u8], i: usize) -> u32
    ensures { result ≡ get_or parts.now i 0 }
{
    parts.get(i).copied().map_or(0, u32::from)
}

// Whether no part is 0 and none is above the one before it.
pub fn is_partition(parts: &[u8]) -> bool
    ensures { result ≡ is_partition parts.now }
{
    for (i, part) in parts.iter().enumerate() {
        if *part == 0 {
            return false;
        }
        if u32::from(*part) < part_at(parts, i + 1) {
            return false;
        }
    }
    true
}

// The degree of a part list, and one more than the limit for any above it.
pub fn capped_degree(parts: &[u8]) -> u32
    ensures { result ≡ min (degree parts.now) (suc degree_limit) }
{
    let mut degree = 0u32;
    for part in parts {
        degree += u32::from(*part);
        if LIMIT < degree {
            return LIMIT + 1;
        }
    }
    degree
}

// Why a part list is refused: 3 for no partition, then `large` for a degree above the limit.
pub fn refusal(parts: &[u8], large: Refusal) -> Result<(), Refusal>
    ensures { refusal_of result ≡ first_of (list_checks degree_limit (number_of large) parts.now) }
{
    if !is_partition(parts) {
        return Err(Refusal::BadClass);
    }
    if LIMIT < capped_degree(parts) {
        return Err(large);
    }
    Ok(())
}
