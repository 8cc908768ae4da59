// The tables of d! and S(d), d being a degree within the limit.
ghost use Rattle.std.specs.Prelude.{◌≡◌, ◌≤◌};
ghost use Rattle.theory.specs.Bounds.{factorial, S};
ghost use Rattle.theory.specs.Limits.{degree_limit};
ghost use Rattle.pages.specs.Private.Tables.{Tabled};

use super::paying::SPANS;
use words::DEGREES;
use words::classes::FACTORIALS;

// Both tables. They are made once and lent, since a constant would be made anew for each line.
#[derive(Drop)]
pub struct Tables {
    factorials: [u64; DEGREES],
    spans: [u64; DEGREES],
    ghost of_factorials: { Tabled degree_limit factorial factorials },
    ghost of_spans: { Tabled degree_limit S spans },
}

impl Tables {
    pub fn new() -> Tables {
        Tables {
            factorials: FACTORIALS,
            spans: SPANS,
        }
    }

    // d!
    pub fn factorial(&self, degree: u32) -> u64
        requires { degree ≤ degree_limit }
        ensures { result ≡ factorial degree }
    {
        self.factorials[degree as usize]
    }

    // S(d), the most steps that a line of degree d can take.
    pub fn span(&self, degree: u32) -> u64
        requires { degree ≤ degree_limit }
        ensures { result ≡ S degree }
    {
        self.spans[degree as usize]
    }
}
