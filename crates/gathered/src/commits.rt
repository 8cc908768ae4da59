// A step in the gathered mode (document 02, P7, "Each hook brings the chosen line's coefficient times its own sign").
// The struck line by itself is a plain session of one line, which the plain commit strikes; its hook lines that wait
// are then joined to the others. Everything is read before the first word is written.
ghost use Rattle.std.specs.Prelude.{◌≡◌, ◌+◌, ◌≤◌, ◌<◌, ◌^◌, pos, ◌+ℤ◌, nat_abs};
ghost use Rattle.std.proofs.lemmas.List.Edits.{sets};
ghost use Rattle.theory.specs.Basics.{map, length, signed};
ghost use Rattle.theory.specs.Limits.{degree_limit};
ghost use Rattle.words.specs.Answers.{Outcome, told};
ghost use Rattle.pages.specs.Page.{slip_of};
ghost use Rattle.pages.specs.Mode.{weighted, gathered_mode};
ghost use Rattle.pages.specs.Sound.{line_value};
ghost use Rattle.pages.specs.Sound.Laws.{SoundLine};
ghost use Rattle.sessions.specs.Opening.{handed};
ghost use Rattle.sessions.specs.Step.{commit_in};
ghost use Rattle.gathered.specs.Private.Striking.{cleared, turned, Strikes};

use super::{joining, numbers, own};
use pages::{Slip, gathering};
use words::Refusal;

// What comes of a line that is struck: how many of its hook lines wait, and the sum of the weights of the others.
#[derive(Clone, Copy, Debug, PartialEq, Eq)]
struct Struck {
    count: usize,
    settled: i64,
}

// A number, its sign turned where `minus` says so.
fn turn(minus: bool, number: i64) -> i64
    requires { nat_abs number < 2 ^ 63 }
    ensures { result ≡ signed minus number }
{
    if minus { -number } else { number }
}

// Hook lines of a line without its coefficient become those of the line with it: words with clear sign digits, and the
// coefficient beside each, its sign turned where the hook's is minus.
fn weigh(hooks: &[u64], coefficient: i64, words: &mut [u64], weights: &mut [i64])
    requires { (length hooks.now ≤ length words.old) × (length hooks.now ≤ length weights.old)
        × (nat_abs coefficient < 2 ^ 63) }
    ensures { (words.new ≡ sets words.old 0 (map cleared hooks.now))
        × (weights.new ≡ sets weights.old 0 (map (turned coefficient) hooks.now)) }
{
    for (j, &hook) in hooks.iter().enumerate() {
        words[j] = hook % 0x8000_0000_0000_0000;
        weights[j] = turn(linewords::minus(hook), coefficient);
    }
}

// Strikes a cycle from a line: its hook lines that wait, in hook order, to the front of words and weights. Refuses 9,
// then 19.
fn strike(
    word: u64,
    coefficient: i64,
    cycle: u64,
    strip: &[u64],
    words: &mut [u64],
    weights: &mut [i64],
) -> Result<Struck, Refusal>
    requires { SoundLine degree_limit (weighted word coefficient) × (line_value (weighted word coefficient) < 2 ^ 58)
        × (length words.old ≡ degree_limit) × (length weights.old ≡ degree_limit) }
    ensures { Strikes cycle (weighted word coefficient) strip.now result words.new
        weights.new }
{
    let mut own = [0u64; words::LIMIT as usize];
    own[0] = word;
    let after = match sessions::commit(own::alone(word), &mut own, 0, cycle, strip) {
        Ok(after) => after,
        Err(refused) => return Err(refused.refusal),
    };
    let count = after.lines;
    weigh(&own[..count], coefficient, words, weights);
    Ok(Struck {
        count,
        settled: numbers::times(coefficient, after.settled),
    })
}

// The slip after a step that settles a sum and leaves so many lines.
fn next_slip(slip: Slip, settled: i64, lines: usize) -> Slip
    requires { (nat_abs slip.settled + nat_abs settled < 2 ^ 63) × (nat_abs slip.steps + 1 < 2 ^ 63) }
    ensures { result ≡ slip_of slip.shape slip.class (slip.settled +ℤ settled) lines (slip.steps +ℤ pos 1)
        slip.mode }
{
    Slip {
        shape: slip.shape,
        class: slip.class,
        settled: slip.settled + settled,
        lines,
        steps: slip.steps + 1,
        mode: slip.mode,
    }
}

// A commit: the slip after it, or why it is refused: 6, 21, 7, 8, 9, 19, 10.
pub fn committed(
    slip: Slip,
    page: &mut [u64],
    coefficients: &mut [i64],
    line: usize,
    cycle: u64,
    strip: &[u64],
) -> Result<Slip, Refusal>
    ensures { Outcome (commit_in gathered_mode degree_limit slip
        (page.old, coefficients.old) line cycle strip.now) (told handed slip result)
        (page.new, coefficients.new) }
{
    gathering::refusal(slip, &page[..], &coefficients[..])?;
    let lines = slip.lines;
    if lines <= line {
        return Err(Refusal::NoSuchLine);
    }
    let mut words = [0u64; words::LIMIT as usize];
    let mut weights = [0i64; words::LIMIT as usize];
    let struck = strike(
        page[line],
        coefficients[line],
        cycle,
        strip,
        &mut words,
        &mut weights,
    )?;
    let count = struck.count;
    let joined = joining::join_hooks(
        page,
        coefficients,
        line,
        lines,
        &words[..count],
        &weights[..count],
    );
    let left = joined.ok_or(Refusal::PageFull)?;
    Ok(next_slip(slip, struck.settled, left))
}
