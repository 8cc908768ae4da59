// The column of a class (document 01, "Listing"): the characters of all shapes of its degree. Every call takes every
// input, and a refused call writes nothing.

#![tactic(auto)]

ghost use Rattle.std.specs.Prelude.{◌≡◌};
ghost use Rattle.theory.specs.Limits.{degree_limit};
ghost use Rattle.words.specs.Answers.{Outcome, count_told};
ghost use Rattle.classcolumns.specs.Calls.{column_into};

use words::Refusal;

mod filling;
mod lookup;
mod tables;

// The characters of all shapes on a class word, in listing order, to the front of `values`; their count is the answer.
// Refuses 3, 4, then 14.
pub fn column(class: u32, values: &mut [i64]) -> Result<usize, Refusal>
    ensures { Outcome (column_into degree_limit class values.old) (count_told result) values.new }
{
    let degree = words::classes::degree(class)?;
    let count = listing::section(degree).unwrap().count;
    if values.len() < count {
        return Err(Refusal::ColumnTooShort);
    }
    let mut parts = [0u8; words::LIMIT as usize];
    let cycles = words::classes::parts(class, &mut parts).unwrap_or(0);
    filling::write(&parts[..cycles], degree, values);
    Ok(count)
}
