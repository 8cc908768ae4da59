// Lines with coefficients (document 02, P7, "Watches 1 and 4 multiply by the coefficient"): weighed, and summed.
ghost use Rattle.std.specs.Prelude.{◌≡◌, ◌<◌, ◌^◌};
ghost use Rattle.theory.specs.Basics.{length, sum as sum_of, Each};
ghost use Rattle.theory.specs.Limits.{degree_limit};
ghost use Rattle.pages.specs.Line.{signed_character};
ghost use Rattle.pages.specs.Mode.{weighted, alongside};
ghost use Rattle.pages.specs.Sound.{line_value};
ghost use Rattle.pages.specs.Sound.Laws.{SoundLine, values};

use super::numbers;
use characters::character;

// A line's coefficient times its character.
pub fn signed_character(line: u64, coefficient: i64) -> i64
    requires { SoundLine degree_limit (weighted line coefficient)
        × (line_value (weighted line coefficient) < 2 ^ 63) }
    ensures { result ≡ signed_character (weighted line coefficient) }
{
    let number = character(linewords::shape(line), linewords::class(line)).unwrap();
    numbers::times(coefficient, number)
}

// The sum of the characters of lines, each times its coefficient.
pub fn sum(lines: &[u64], coefficients: &[i64]) -> i64
    requires { (length lines.now ≡ length coefficients.now)
        × Each (SoundLine degree_limit) (alongside lines.now coefficients.now)
        × (values (alongside lines.now coefficients.now) < 2 ^ 63) }
    ensures { result ≡ sum_of signed_character (alongside lines.now coefficients.now) }
{
    let mut sum = 0i64;
    for (&line, &coefficient) in lines.iter().zip(coefficients) {
        sum += signed_character(line, coefficient);
    }
    sum
}
