// Waiting lines with coefficients read off a text: to judge their form, and again to put them down.
ghost use Rattle.std.specs.Prelude.{◌≡◌, ◌≤◌};
ghost use Rattle.theory.specs.Basics.{length, Each};
ghost use Rattle.theory.specs.Limits.{degree_limit};
ghost use Rattle.textreading.specs.Reading.{lines_of};
ghost use Rattle.sessiontext.specs.SessionText.{gathered_form};
ghost use Rattle.sessiontext.specs.Reading.Forms.{WaitingBy};
ghost use Rattle.sessiontext.specs.Private.Weighted.{ToldWeighted, ReadWeighted, FirstFault, PutDown};

use super::{numbers, waiting, weighted};

// A waiting line: its word with a clear sign digit, and its coefficient.
#[derive(Clone, Copy)]
pub struct Weighted {
    pub word: u64,
    pub coefficient: i64,
}

// What stands in the text of a waiting line, whatever its form, if 64 bits hold the coefficient and shape and class are
// partitions within the limit.
fn line_in(line: &[u8]) -> Option<Weighted>
    ensures { ToldWeighted line.now result }
{
    let word = waiting::word_in(line)? % 0x8000_0000_0000_0000;
    let first = textreading::find(59, line, 0);
    let coefficient = numbers::integer_in(&line[..first])?;
    Some(Weighted { word, coefficient })
}

// A waiting line.
fn waiting_line(line: &[u8]) -> Option<Weighted>
    ensures { ReadWeighted line.now result }
{
    let read = line_in(line)?;
    let mut own = [0u8; weighted::LINE_ROOM];
    let end = weighted::line(read.word, read.coefficient, &mut own, 0);
    check::same(line, &own[..end]).then_some(read)
}

// The first of the waiting lines that a text has behind seven others that is not of its form, by its number in the
// text. Lines are taken off what is left of it, by no index: an iterator of lines would be no plainer.
pub fn first_fault(text: &[u8]) -> Option<usize>
    ensures { FirstFault (lines_of text.now) result }
{
    let mut rest = text;
    let mut number: usize = 8;
    while !rest.is_empty() {
        let end = textreading::line_end(rest, 0);
        if waiting_line(&rest[..end]).is_none() {
            return Some(number);
        }
        number += 1;
        rest = &rest[end..];
    }
    None
}

// Puts the waiting lines of a text, all of their form, at the front of a page and a column of coefficients that have
// room for them (taken off as above).
pub fn put(text: &[u8], page: &mut [u64], column: &mut [i64])
    requires each { Each (WaitingBy gathered_form degree_limit) (lines_of text.now) }
    requires text_in_bounds { (length (lines_of text.now) ≤ length page.old)
        × (length page.old ≡ length column.old) }
    ensures { PutDown (lines_of text.now) page.old column.old page.new column.new }
{
    let mut rest = text;
    let mut count = 0;
    while !rest.is_empty() {
        let end = textreading::line_end(rest, 0);
        let read = line_in(&rest[..end]).unwrap();
        page[count] = read.word;
        column[count] = read.coefficient;
        count += 1;
        rest = &rest[end..];
    }
}
