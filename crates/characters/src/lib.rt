// The calculator: characters of the symmetric group, and the watches of a session. Every call takes every input.

#![tactic(auto)]

ghost use Rattle.std.specs.Prelude.{◌≡◌};
ghost use Rattle.theory.specs.Limits.{degree_limit};
ghost use Rattle.words.specs.Answers.{number_told};
ghost use Rattle.characters.specs.Calls.{character_of, shape_character_degree};

use words::Refusal;

mod evaluation;
mod frobenius;
mod lines;
mod small_tables;
mod walking;
pub mod watches;

// What a watch answers: the form that document 01 names, with the refusal as one of its cases.
#[derive(Clone, Copy)]
pub enum Watched {
    Whole(i64),
    Ratio(f64),
    Refused(u8),
}

// The character of a shape word on a class word. Refuses 1, 3, 2, 4, 5.
pub fn character(shape: u32, class: u32) -> Result<i64, Refusal>
    ensures { number_told result ≡ character_of degree_limit shape class }
{
    let pair = pairs::common_degree(shape, class)?;
    Ok(evaluation::value(pair.shape, class))
}

// The character degree of a shape word: its character on (1^n). Refuses 1, then 2.
pub fn character_degree(shape: u32) -> Result<i64, Refusal>
    ensures { number_told result ≡ shape_character_degree degree_limit shape }
{
    let shape = words::shapes::read(shape)?;
    Ok(frobenius::quotient(shape.word, shape.degree))
}
