// A list moves to the other form, for both calls.
ghost use Rattle.std.specs.Prelude.{◌≡◌};
ghost use Rattle.theory.specs.Basics.{length, map, Each};
ghost use Rattle.theory.specs.OldForm.{new_word, old_word};
ghost use Rattle.theory.specs.OldForm.Laws.{Passes};
ghost use Rattle.theory.specs.Limits.{degree_limit};
ghost use Rattle.theory.specs.Bounds.Laws.{largest_limit};
ghost use Rattle.theory.specs.Refusals.{first_of};
ghost use Rattle.theory.specs.Refusals.Laws.{Within, WithinClass};
ghost use Rattle.words.specs.Answers.{Outcome, refusal_of};
ghost use Rattle.oldlists.specs.Lists.{first_bad, moved as movedList, list_told};
ghost use Rattle.oldlists.specs.Private.Forms.{form_checks, other_form};

use super::{LIST_LIMIT, Rejected};
use words::parts::Parts;
use words::{Refusal, SHAPE_WORDS, classes, shapes};

// The form of a word that is given.
#[derive(Clone, Copy)]
pub enum Form {
    Old,
    New,
}

// The new word of an old one. `bits` begins as 31 ones and one more; each row takes its zero out of them, behind the
// zero of the row before and the ones by which that row is longer. At the end the ones behind the last row go, with the
// one more.
fn new_word(word: u32) -> u32
    requires { WithinClass largest_limit word }
    ensures { result ≡ new_word word }
{
    if word == 0 {
        return 0;
    }
    let mut last = u32::leading_zeros(word);
    let mut left = 31u32;
    let mut bits = 0x8000_0000u32;
    for part in Parts::of(word) {
        left = left - (last - part) - 1;
        bits -= 1u32 << left;
        last = part;
    }
    bits - (1u32 << (left - last))
}

// The old word of a new one. Its digits are complemented, up to the last one, so that a one stands for each row; that
// is as long as there are ones left.
fn old_word(word: u32) -> u32
    requires { Within largest_limit word }
    ensures { result ≡ old_word word }
{
    if word == 0 {
        return 0;
    }
    let complement = 0x8000_0000 - (1u32 << u32::trailing_zeros(word)) - word;
    let mut length = u32::count_ones(word);
    let mut left = 31u32;
    let mut bits = 0u32;
    for part in Parts::of(complement) {
        length -= part - 1;
        left -= length;
        bits += 1u32 << left;
    }
    bits
}

impl Form {
    // Why a word is refused, as the call for its degree gives it. A list keeps good words: a new word of 2^30 or more is
    // refused 1.
    fn refusal(self, word: u32) -> Result<(), Refusal>
        ensures { refusal_of result ≡ first_of (form_checks degree_limit self word) }
    {
        match self {
            Form::Old => {
                classes::degree(word)?;
            }
            Form::New => {
                if SHAPE_WORDS <= word {
                    return Err(Refusal::BadShape);
                }
                shapes::degree(word)?;
            }
        }
        Ok(())
    }

    // A word that is not refused, in the other form.
    fn other(self, word: u32) -> u32
        requires { Passes (form_checks degree_limit self) word }
        ensures { result ≡ other_form self word }
    {
        match self {
            Form::Old => new_word(word),
            Form::New => old_word(word),
        }
    }
}

// Why the first bad word is refused, and its index.
fn first_bad(words: &[u32], form: Form) -> Result<(), Rejected>
    ensures { list_told result ≡ first_bad (form_checks degree_limit form) 0 words.now }
{
    for (i, word) in words.iter().enumerate() {
        if let Err(refusal) = form.refusal(*word) {
            return Err(Rejected { refusal, index: i });
        }
    }
    Ok(())
}

// Each word in the other form, where none is refused, to its place in the lent list.
fn write(given: &[u32], lent: &mut [u32], form: Form)
    requires { (length given.now ≡ length lent.old) × Each (Passes (form_checks degree_limit form)) given.now }
    ensures { lent.new ≡ map (other_form form) given.now }
{
    for (i, word) in given.iter().enumerate() {
        lent[i] = form.other(*word);
    }
}

// A list in the other form. Refuses 20, then as the first bad word is refused; all are judged before one is written.
pub fn moved(given: &[u32], lent: &mut [u32], form: Form) -> Result<(), Rejected>
    ensures { Outcome
        (movedList (form_checks degree_limit form) (other_form form) given.now lent.old) (list_told result)
        lent.new }
{
    if given.len() != lent.len() || LIST_LIMIT < given.len() {
        return Err(Rejected {
            refusal: Refusal::BadLengths,
            index: 0,
        });
    }
    first_bad(given, form)?;
    write(given, lent, form);
    Ok(())
}
