// The text that the table program writes for any input (document 01, "Table program"), as bytes.

#![tactic(auto)]

ghost use Rattle.theory.specs.Limits.{degree_limit};
ghost use Rattle.words.specs.Answers.{Outcome};
ghost use Rattle.tabletext.specs.Table.{chartable_into};

mod reading;
mod table;

// How many bytes are enough for every answer.
pub const ROOM: usize = 1_048_576;

// The text that answers an input, at the front of lent bytes; its length is the answer, and the other bytes stay.
// Refuses 13, then 12.
pub fn answer(input: &[u8], out: &mut [u8; ROOM]) -> usize
    ensures { Outcome (chartable_into degree_limit input.now out.old) result out.new }
{
    let Some(degree) = reading::asked(input) else {
        return text::fields::line(b"refused=", 13u64, out, 0);
    };
    if words::LIMIT < degree {
        return text::fields::line(b"refused=", 12u64, out, 0);
    }
    table::table(degree, out, 0)
}
