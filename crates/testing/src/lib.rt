// What the test programs share: counts of cases with the line that says them, and whole numbers with room. Every call
// takes every input.

#![tactic(auto)]

ghost use Rattle.std.specs.Prelude.{◌≡◌, Some};
ghost use Rattle.testing.specs.Tallies.{none, counted, told};

use std::{fmt, io};

pub mod numbers;

// How many cases of a check were run, and how many of them were wrong.
#[derive(Clone, Copy, Default)]
pub struct Tally {
    pub cases: u64,
    pub wrong: u64,
}

impl Tally {
    pub fn new() -> Self
        ensures { result ≡ none }
    {
        Tally { cases: 0, wrong: 0 }
    }

    // One case more.
    pub fn add(self, right: bool) -> Self
        ensures { result ≡ counted self right }
    {
        Tally {
            cases: self.cases.wrapping_add(1),
            wrong: self.wrong.wrapping_add(u64::from(!right)),
        }
    }
}

impl fmt::Display for Tally {
    ghost output = { λ tally. Some (told tally) };

    fn fmt<W: fmt::Write>(&self, f: &mut fmt::Formatter<W>) -> fmt::Result {
        let Tally { cases, wrong } = self;
        write!(f, "{cases} cases, {wrong} wrong")
    }
}

// A line on standard output: the name of a check and its cases. No contract can say what is written.
pub fn print(rt: &impl Print, name: &[u8], tally: Tally) -> io::Result<()>
    ensures { Unit {0} }
{
    rt.write_all(name)?;
    println!(rt; ": {tally}")
}
