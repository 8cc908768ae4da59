// Waiting lines read off a text: once to judge them, and once more to put them on a page.
ghost use Rattle.std.specs.Prelude.{◌≡◌, map, ◌+◌, ◌≤◌, min};
ghost use Rattle.std.proofs.lemmas.List.Edits.{sets};
ghost use Rattle.theory.specs.Basics.{length, Each};
ghost use Rattle.theory.specs.Limits.{degree_limit};
ghost use Rattle.textreading.specs.Reading.{lines_of};
ghost use Rattle.pages.specs.Page.{word_of};
ghost use Rattle.pages.specs.Budget.{budget_told};
ghost use Rattle.sessiontext.specs.Reading.{line_in};
ghost use Rattle.sessiontext.specs.Reading.Forms.{Waiting};
ghost use Rattle.sessiontext.specs.Private.Read.{ReadLine, ReadWaiting, ReadNext, ReadLines};

use super::partitions::{Classes, Shapes, word_in as partition_in};
use super::{straight, writing};
use pages::{Budget, soundness};

// Behind a place in a text, or its end.
fn past(place: usize, text: &[u8]) -> usize
    ensures { result ≡ min (place + 1) (length text.now) }
{
    place.saturating_add(1).min(text.len())
}

// What stands in the text of a waiting line, whatever its form: the line's word, if shape and class are partitions
// within the limit.
pub fn word_in(line: &[u8]) -> Option<u64>
    ensures { ReadLine line.now result }
{
    let first = textreading::find(59, line, 0);
    let start = past(first, line);
    let second = textreading::find(59, line, start);
    let last = past(second, line);
    let minus = textreading::find(45, &line[..first], 0) < first;
    let shape = partition_in::<Shapes>(&line[start..second])?;
    let class = partition_in::<Classes>(&line[last..])?;
    Some(linewords::word(minus, shape, class))
}

// The word of a waiting line.
fn waiting(line: &[u8]) -> Option<u64>
    ensures { ReadWaiting line.now result }
{
    let word = word_in(line)?;
    let mut own = [0u8; writing::LINE_ROOM];
    let end = writing::line(word, &mut own, 0);
    check::same(line, &own[..end]).then_some(word)
}

// The word of the waiting line at the front of a text, and what is behind it.
fn next(text: &[u8]) -> Option<(u64, &[u8])>
    ensures { ReadNext text.now result }
{
    if let Some(line) = straight::line(text) {
        return Some(line);
    }
    let end = textreading::line_end(text, 0);
    let word = waiting(&text[..end])?;
    Some((word, &text[end..]))
}

// Judges the waiting lines that a text has behind six others: whether a budget suffices, or the first of them that is
// not of its form, by its number in the text. Lines are taken off what is left of it, by no index: an iterator of lines
// would be no plainer.
pub fn judge(text: &[u8], budget: Option<Budget>) -> Result<bool, usize>
    ensures { ReadLines (lines_of text.now) (budget_told budget) result }
{
    let mut rest = text;
    let mut number: usize = 7;
    let mut left = budget;
    while !rest.is_empty() {
        let (word, behind) = next(rest).ok_or(number)?;
        left = soundness::spend(left, &[word]);
        number += 1;
        rest = behind;
    }
    Ok(left.is_some())
}

// Puts the waiting lines of a text, all of their form, at the front of a page that has room for them (taken off as
// above).
pub fn put(text: &[u8], page: &mut [u64])
    requires each { Each (Waiting degree_limit) (lines_of text.now) }
    requires text_in_bounds { length (lines_of text.now) ≤ length page.old }
    ensures { page.new ≡ sets page.old 0 (map word_of (map line_in (lines_of text.now))) }
{
    let mut rest = text;
    let mut count = 0;
    while !rest.is_empty() {
        let (word, behind) = next(rest).unwrap();
        page[count] = word;
        count += 1;
        rest = behind;
    }
}
