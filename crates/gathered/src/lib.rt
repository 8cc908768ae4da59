// Sessions in the gathered mode (document 02, P7, "Gather like lines"): a page of words and a column of coefficients
// beside it. A line by itself is a plain session of one line, so that the plain calls do the work. Every call takes
// every input, and a refused call writes nothing.

#![tactic(auto)]

ghost use Rattle.std.specs.Prelude.{◌≡◌};
ghost use Rattle.theory.specs.Refusals.{first_of};
ghost use Rattle.theory.specs.Limits.{degree_limit};
ghost use Rattle.words.specs.Answers.{Outcome, count_told, refusal_of};
ghost use Rattle.pages.specs.Mode.{gathered_mode};
ghost use Rattle.sessions.specs.Opening.{handed_told, opening_in};
ghost use Rattle.sessions.specs.Step.{preview_in, commit_in};
ghost use Rattle.characters.specs.Watch.{reads, watch_checks_in, watch_in};

use characters::{Watched, watches};
use pages::{GATHERED, PAGE_LIMIT, Slip, gathering};
use sessions::Refused;
use words::Refusal;

mod columns;
mod commits;
mod joining;
mod lines;
mod numbers;
mod own;

// Opens a session of a shape on a class as in the plain mode; its line has the coefficient 1, and zeros come after it.
// Refuses 1, 3, 2, 4, 5, then 6, 21, 10.
pub fn open(
    shape: u32,
    class: u32,
    page: &mut [u64],
    coefficients: &mut [i64],
) -> Result<Slip, Refused>
    ensures { Outcome (opening_in gathered_mode degree_limit shape class
        (page.old, coefficients.old)) (handed_told result) (page.new, coefficients.new) }
{
    pairs::common_degree(shape, class)?;
    if PAGE_LIMIT < page.len() {
        return Err(Refused::from(Refusal::PageTooLong));
    }
    if page.len() != coefficients.len() {
        return Err(Refused::from(Refusal::BadCoefficients));
    }
    let mut slip = sessions::open(shape, class, page)?; // there may be no room
    columns::begin(coefficients, slip.lines);
    slip.mode = GATHERED;
    Ok(slip)
}

// The new lines of a named line and cycle, in hook order and without coefficients, to the front of a strip; their count
// is the answer, and the rest of the strip stays. Refuses 6, 21, 7, 8, 9, then 18.
pub fn preview(
    slip: Slip,
    page: &[u64],
    coefficients: &[i64],
    line: usize,
    cycle: u64,
    strip: &mut [u64],
) -> Result<usize, Refusal>
    ensures { Outcome (preview_in gathered_mode degree_limit slip
        (page.now, coefficients.now) line cycle strip.old) (count_told result) strip.new }
{
    gathering::refusal(slip, page, coefficients)?;
    if slip.lines <= line { // no such line
        return Err(Refusal::NoSuchLine);
    }
    let word = page[line];
    let alone = [word];
    sessions::preview(own::alone(word), &alone, 0, cycle, strip)
}

// Finishes a step whose preview the front of the strip is: the line is taken out, its hook lines that wait are joined
// to the lines equal to them or come at the end, each with the line's coefficient times its own sign, and lines whose
// coefficient became 0 are taken out. Refuses 6, 21, 7, 8, 9, then 19, 10, and hands back the slip that it was given.
pub fn commit(
    slip: Slip,
    page: &mut [u64],
    coefficients: &mut [i64],
    line: usize,
    cycle: u64,
    strip: &[u64],
) -> Result<Slip, Refused>
    ensures { Outcome (commit_in gathered_mode degree_limit slip
        (page.old, coefficients.old) line cycle strip.now) (handed_told result)
        (page.new, coefficients.new) }
{
    commits::committed(slip, page, coefficients, line, cycle, strip).map_err(|refusal| Refused {
        refusal,
        slip,
    })
}

// Why a watch is refused: 6, 21, 7, 15, 8.
fn watch_refusal(
    slip: Slip,
    page: &[u64],
    coefficients: &[i64],
    kind: u64,
    line: usize,
) -> Result<(), Refusal>
    ensures { refusal_of result ≡ first_of (watch_checks_in gathered_mode degree_limit slip
        (page.now, coefficients.now) kind line) }
{
    gathering::refusal(slip, page, coefficients)?;
    watches::kind_refusal(kind, slip.lines, line)
}

// What a kind shows: 1 a line's coefficient times its character, 2 its ratio, without the coefficient, 3 the settled
// sum, 4 the sum of all waiting characters, each times its coefficient, 5 the steps. Refuses 6, 21, 7, 15, 8.
pub fn watch(slip: Slip, page: &[u64], coefficients: &[i64], kind: u64, line: usize) -> Watched
    ensures { reads result ≡ watch_in gathered_mode degree_limit slip
        (page.now, coefficients.now) kind line }
{
    if let Err(refusal) = watch_refusal(slip, page, coefficients, kind, line) {
        return Watched::Refused(refusal.number());
    }
    let lines = slip.lines;
    match kind {
        1 => Watched::Whole(lines::signed_character(page[line], coefficients[line])),
        2 => own::ratio(page[line]),
        3 => Watched::Whole(slip.settled),
        4 => Watched::Whole(lines::sum(&page[..lines], &coefficients[..lines])),
        _ => Watched::Whole(slip.steps),
    }
}
