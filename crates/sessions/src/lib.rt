// Sessions (document 01, "Slip and page"; document 02, P3): opened, previewed and committed over a lent page.
// Everything is judged before the first word is written, and a refused call writes nothing.

#![tactic(auto)]

ghost use Rattle.std.specs.Prelude.{◌≡◌, ◌+◌, ◌<◌, ◌^◌, pos, ◌+ℤ◌, nat_abs, ◌∷◌};
ghost use Rattle.theory.specs.Basics.{not, [], length};
ghost use Rattle.theory.specs.Refusals.{first_of};
ghost use Rattle.theory.specs.Limits.{degree_limit};
ghost use Rattle.words.specs.Answers.{Outcome, refusal_of, word_told, count_told};
ghost use Rattle.pages.specs.Page.{slip_of};
ghost use Rattle.pages.specs.Sound.{page_checks};
ghost use Rattle.sessions.specs.Opening.{handed_told, opening};
ghost use Rattle.sessions.specs.Step.{preview as previewOf, commit as commitOf};
ghost use Rattle.sessions.specs.Private.ClassLeft.{class_left_of};
ghost use Rattle.sessions.specs.Private.Struck.{struck_told, struck_onto};

use lines::HookLines;
use pages::{BLANK, PAGE_LIMIT, PLAIN, Slip, soundness};
use words::Refusal;

mod lines;
mod page;

// Why a call is refused, and the slip that it hands back.
#[derive(Clone, Copy, Debug, PartialEq, Eq)]
pub struct Refused {
    pub refusal: Refusal,
    pub slip: Slip,
}

// Where no slip was given, a blank one is handed back.
impl From<Refusal> for Refused {
    ghost use Rattle.std.specs.Prelude.{◌≡◌};
    ghost use Rattle.pages.specs.Page.{blank};
    ghost use Rattle.sessions.specs.Opening.{refused};

    ghost from_gives = { λ refusal r. r ≡ refused refusal blank };

    fn from(refusal: Refusal) -> Refused {
        Refused {
            refusal,
            slip: BLANK,
        }
    }
}

// Opens a session of a shape on a class: one line with a plus sign and zeros after it, or at degree 0 no line and 1
// settled. Slip and line have the good word of the shape. Refuses 1, 3, 2, 4, 5, then 6, 10.
pub fn open(shape: u32, class: u32, page: &mut [u64]) -> Result<Slip, Refused>
    ensures { Outcome (opening degree_limit shape class page.old) (handed_told result) page.new }
{
    let pair = pairs::common_degree(shape, class)?;
    let good = pair.shape;
    if PAGE_LIMIT < page.len() {
        return Err(Refused::from(Refusal::PageTooLong));
    }
    if pair.degree == 0 {
        clearing::clear(page, 0);
        return Ok(Slip {
            shape: good,
            class,
            settled: 1,
            lines: 0,
            steps: 0,
            mode: PLAIN,
        });
    }
    if page.len() == 0 {
        return Err(Refused::from(Refusal::PageFull));
    }
    clearing::clear(page, 0);
    page[0] = linewords::word(false, good, class);
    Ok(Slip {
        shape: good,
        class,
        settled: 0,
        lines: 1,
        steps: 0,
        mode: PLAIN,
    })
}

// Why a slip and a page are refused: 6, then 7.
pub fn page_refusal(slip: Slip, page: &[u64]) -> Result<(), Refusal>
    ensures { refusal_of result ≡ first_of (page_checks degree_limit slip page.now) }
{
    soundness::refusal(slip, page)
}

// The class of a named line without a named cycle. Refuses 6, 7, 8, 9.
fn class_left(slip: Slip, page: &[u64], line: usize, cycle: u64) -> Result<u32, Refusal>
    ensures { word_told result ≡ class_left_of degree_limit slip page.now line cycle }
{
    page_refusal(slip, page)?;
    if slip.lines <= line { // no such line
        return Err(Refusal::NoSuchLine);
    }
    lines::strike(linewords::class(page[line]), cycle).ok_or(Refusal::NoSuchCycle)
}

// Strikes a named cycle from a named line, on a strip of as many words as there can be hook lines. Refuses 6, 7, 8, 9.
fn strike(
    slip: Slip,
    page: &[u64],
    line: usize,
    cycle: u64,
    strip: &mut [u64],
) -> Result<HookLines, Refusal>
    requires { length strip.old ≡ degree_limit }
    ensures { Outcome (struck_onto degree_limit slip page.now line cycle strip.old)
        (struck_told result) strip.new }
{
    let class = class_left(slip, page, line, cycle)?;
    Ok(lines::strip(page[line], cycle as u32, class, strip))
}

// The slip after a step that settles a sum and leaves so many lines.
fn next_slip(slip: Slip, settled: i64, lines: usize) -> Slip
    requires { (nat_abs slip.settled + nat_abs settled < 2 ^ 63) × (nat_abs slip.steps + 1 < 2 ^ 63) }
    ensures { result ≡ slip_of slip.shape slip.class (slip.settled +ℤ settled) lines (slip.steps +ℤ pos 1)
        slip.mode }
{
    Slip {
        shape: slip.shape,
        class: slip.class,
        settled: slip.settled + settled,
        lines,
        steps: slip.steps + 1,
        mode: slip.mode,
    }
}

// The new lines of a named line and cycle, in hook order and as a commit puts them on the page, to the front of a
// strip; their count is the answer, and the rest of the strip stays. Refuses 6, 7, 8, 9, then 18.
pub fn preview(
    slip: Slip,
    page: &[u64],
    line: usize,
    cycle: u64,
    strip: &mut [u64],
) -> Result<usize, Refusal>
    ensures { Outcome (previewOf degree_limit slip page.now line cycle strip.old)
        (count_told result) strip.new }
{
    let mut new = [0u64; words::LIMIT as usize];
    let count = strike(slip, page, line, cycle, &mut new)?.count;
    if strip.len() < count {
        return Err(Refusal::StripTooShort);
    }
    page::write_strip(strip, 0, &new[..count]);
    Ok(count)
}

// Why a commit of a line and a cycle that are not refused is refused: 19, then 10.
fn last_refusal(fits: bool, full: bool) -> Result<(), Refusal>
    ensures { refusal_of result ≡ first_of ((not fits, 19) ∷ (full, 10) ∷ []) }
{
    if !fits {
        return Err(Refusal::NotThatPreview);
    }
    if full {
        return Err(Refusal::PageFull);
    }
    Ok(())
}

// Finishes a step whose preview the front of the strip is: the line is taken out, later lines move down, and its hook
// lines that wait come at the end. Refuses 6, 7, 8, 9, then 19, 10, and hands back the slip that it was given.
pub fn commit(
    slip: Slip,
    page: &mut [u64],
    line: usize,
    cycle: u64,
    strip: &[u64],
) -> Result<Slip, Refused>
    ensures { Outcome (commitOf degree_limit slip page.old line cycle strip.now)
        (handed_told result) page.new }
{
    let mut new = [0u64; words::LIMIT as usize];
    let refused = |refusal| Refused { refusal, slip };
    let hooks = strike(slip, &page[..], line, cycle, &mut new).map_err(refused)?;
    let count = hooks.count;
    let lines = slip.lines;
    let after = lines - 1 + count;
    let last = last_refusal(page::begins(strip, &new[..count]), page.len() < after);
    last.map_err(refused)?;
    page::exchange(page, line, lines, &new[..count]);
    Ok(next_slip(slip, hooks.settled, after))
}
