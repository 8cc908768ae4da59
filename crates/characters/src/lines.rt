// Waiting lines (document 01, "Slip and page"): a line is weighed.
ghost use Rattle.std.specs.Prelude.{◌≡◌, ◌+◌, ◌<◌, ◌^◌, ◌+ℤ◌, nat_abs};
ghost use Rattle.theory.specs.Basics.{map, sum as sum_of, Each};
ghost use Rattle.theory.specs.Bounds.Laws.{largest_limit};
ghost use Rattle.pages.specs.Line.{signed_character};
ghost use Rattle.pages.specs.Page.{line_of};
ghost use Rattle.pages.specs.Sound.{line_value};
ghost use Rattle.pages.specs.Sound.Laws.{SoundLine, values};

use super::evaluation;

// A sum with a line's signed character.
pub fn add_line(sum: i64, line: u64) -> i64
    requires { SoundLine largest_limit (line_of line) × (nat_abs sum + line_value (line_of line) < 2 ^ 63) }
    ensures { result ≡ sum +ℤ signed_character (line_of line) }
{
    evaluation::add_signed(
        sum,
        linewords::minus(line),
        evaluation::value(linewords::shape(line), linewords::class(line)),
    )
}

// The sum of the signed characters of lines.
pub fn sum(lines: &[u64]) -> i64
    requires { Each (SoundLine largest_limit) (map line_of lines.now) × (values (map line_of lines.now) < 2 ^ 63) }
    ensures { result ≡ sum_of signed_character (map line_of lines.now) }
{
    let mut sum = 0i64;
    for line in lines {
        sum = add_line(sum, *line);
    }
    sum
}
