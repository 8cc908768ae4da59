// Lists of shapes moved between Comét's two methods (document 02, P5): the old form is his first, as classes have it,
// and the new one his second. Lists keep good words. Every call takes every input; a refused call writes nothing.

#![tactic(auto)]

ghost use Rattle.theory.specs.Limits.{degree_limit};
ghost use Rattle.words.specs.Answers.{Outcome};
ghost use Rattle.oldlists.specs.Lists.{list_told};
ghost use Rattle.oldlists.specs.Calls.{shapes_from_old, shapes_to_old};

use forms::Form;
use words::Refusal;

mod forms;

// Why a list of words is refused, and the index of its first bad word, from 0; 0 where no word is bad.
#[derive(Clone, Copy, Debug, PartialEq, Eq)]
pub struct Rejected {
    pub refusal: Refusal,
    pub index: usize,
}

// The most words of a list of shapes.
pub const LIST_LIMIT: usize = 4096;

// The good words of shapes that are packed by the first method, as classes are, entry by entry. Refuses 20, then with
// the index of the first bad entry 3 or 4; a refused list writes nothing.
pub fn from_old(old: &[u32], new: &mut [u32]) -> Result<(), Rejected>
    ensures { Outcome (shapes_from_old degree_limit old.now new.old) (list_told result) new.new }
{
    forms::moved(old, new, Form::Old)
}

// And back. Refuses 20, then with the index of the first bad entry 1, where it is 2^30 or more, or 2.
pub fn to_old(new: &[u32], old: &mut [u32]) -> Result<(), Rejected>
    ensures { Outcome (shapes_to_old degree_limit new.now old.old) (list_told result) old.new }
{
    forms::moved(new, old, Form::New)
}
