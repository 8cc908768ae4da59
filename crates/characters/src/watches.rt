// Watches (document 01, "Watches"): what a session shows. They read, and write nothing.
ghost use Rattle.std.specs.Prelude.{◌≡◌, ◌≤◌, ◌^◌, nat_abs};
ghost use Rattle.std.specs.Float.{binary64};
ghost use Rattle.std.specs.Float.Ieee.{of_int, div};
ghost use Rattle.theory.specs.Refusals.{first_of};
ghost use Rattle.theory.specs.Limits.{degree_limit};
ghost use Rattle.words.specs.Answers.{refusal_of};
ghost use Rattle.pages.specs.Page.{line_of};
ghost use Rattle.pages.specs.Sound.Laws.{SoundLine};
ghost use Rattle.characters.specs.Watch.{reads, ratio as ratioOf, kind_checks, watch_checks, watch as watchOf};

use super::{Watched, character_degree, lines};
use pages::{Slip, soundness};
use words::Refusal;

// Why a kind and a line are refused where so many lines wait: 15, 8; kinds 3 to 5 ignore the line number.
pub fn kind_refusal(kind: u64, lines: usize, line: usize) -> Result<(), Refusal>
    ensures { refusal_of result ≡ first_of (kind_checks kind lines line) }
{
    match kind {
        1 | 2 if lines <= line => Err(Refusal::NoSuchLine),
        1..=5 => Ok(()),
        _ => Err(Refusal::NoSuchKind),
    }
}

// Why a watch is refused: 6, 7, 15, 8.
fn watch_refusal(slip: Slip, page: &[u64], kind: u64, line: usize) -> Result<(), Refusal>
    ensures { refusal_of result ≡ first_of (watch_checks degree_limit slip page.now kind line) }
{
    soundness::refusal(slip, page)?;
    kind_refusal(kind, slip.lines, line)
}

// One division of two numbers that are carried over without loss.
fn divided(number: i64, by: i64) -> f64
    requires { (nat_abs number ≤ 2 ^ 53) × (nat_abs by ≤ 2 ^ 53) }
    ensures { result ≡ div binary64 (of_int binary64 number) (of_int binary64 by) }
{
    (number as f64) / (by as f64)
}

// A line's signed character by the character degree of its shape.
fn ratio(line: u64) -> f64
    requires { SoundLine degree_limit (line_of line) }
    ensures { result ≡ ratioOf (line_of line) }
{
    let degree = character_degree(linewords::shape(line)).unwrap();
    divided(lines::add_line(0, line), degree)
}

// What a kind shows: 1 a line's signed character, 2 its ratio, 3 the settled sum, 4 the sum of all signed waiting
// characters, 5 the steps. Refuses 6, 7, 15, 8.
pub fn watch(slip: Slip, page: &[u64], kind: u64, line: usize) -> Watched
    ensures { reads result ≡ watchOf degree_limit slip page.now kind line }
{
    if let Err(refusal) = watch_refusal(slip, page, kind, line) {
        return Watched::Refused(refusal.number());
    }
    let lines = slip.lines;
    match kind {
        1 => Watched::Whole(lines::add_line(0, page[line])),
        2 => Watched::Ratio(ratio(page[line])),
        3 => Watched::Whole(slip.settled),
        4 => Watched::Whole(lines::sum(&page[..lines])),
        _ => Watched::Whole(slip.steps),
    }
}
