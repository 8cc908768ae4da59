// A session of the gathered mode put away as text, and taken up again (document 02, P7: "P1's text gets a line
// `mode=gathered` before `degree` and the coefficient, with a minus where it is negative, in place of the sign").
ghost use Rattle.std.specs.Prelude.{◌≡◌, ◌≤◌};
ghost use Rattle.theory.specs.Basics.{length, drop, ◌≤?◌};
ghost use Rattle.theory.specs.Limits.{degree_limit, page_limit};
ghost use Rattle.words.specs.Answers.{Outcome, count_told};
ghost use Rattle.textreading.specs.Reading.{lines_of};
ghost use Rattle.pages.specs.Mode.{alongside, gathered_mode};
ghost use Rattle.pages.specs.Sound.{sound_with};
ghost use Rattle.sessiontext.specs.SessionText.{gathered_form, session_text_by};
ghost use Rattle.sessiontext.specs.SessionText.Faithful.Gathered.{gathered-faithful};
ghost use Rattle.sessiontext.specs.SessionText.Storable.{StorableBy};
ghost use Rattle.sessiontext.specs.Calls.{loaded_told, save_by, load_by};
ghost use Rattle.sessiontext.specs.Private.Weighted.{ReadFronted, AllFormed, read_as};

use super::coefficients::{first_fault, put};
use super::reading::FirstLines;
use super::{Unloaded, not_loaded, reading, weighted};
use pages::{GATHERED, PAGE_LIMIT, Slip, gathering};
use words::Refusal;

// How many bytes are enough for the first seven lines of a text.
const HEAD_ROOM: usize = 270;

// So many lines at most have small arrays.
const FEW: usize = 64;

// Whether the text of a session has room in so many bytes. Where they are not enough for any text of so many lines, its
// length is told by a writing on no bytes.
fn has_room(slip: Slip, lines: &[u64], coefficients: &[i64], room: usize) -> bool
    requires { (length lines.now ≡ length coefficients.now)
        × StorableBy gathered-faithful degree_limit slip (alongside lines.now coefficients.now)
        × (length lines.now ≤ page_limit) }
    ensures { result ≡ (length (session_text_by gathered_form slip
        (alongside lines.now coefficients.now)) ≤? room) }
{
    if HEAD_ROOM + lines.len() * weighted::LINE_ROOM <= room {
        return true;
    }
    let mut nothing = [0u8; 0];
    weighted::session(slip, lines, coefficients, &mut nothing, 0) <= room
}

// The text of a session, at the front of lent bytes; its length is the answer, and the other bytes stay. Refuses 6, 21,
// 7, 17.
pub fn save(
    slip: Slip,
    page: &[u64],
    coefficients: &[i64],
    text: &mut [u8],
) -> Result<usize, Refusal>
    ensures { Outcome (save_by gathered_form degree_limit slip (page.now, coefficients.now)
        text.old) (count_told result) text.new }
{
    gathering::refusal(slip, page, coefficients)?;
    let lines = slip.lines;
    if !has_room(slip, &page[..lines], &coefficients[..lines], text.len()) {
        return Err(Refusal::BufferTooShort);
    }
    Ok(weighted::session(slip, &page[..lines], &coefficients[..lines], text, 0))
}

// The first seven lines, or the first of them that is at fault. The six behind the mode's are read as those of a plain
// session.
fn head(text: &[u8]) -> Result<FirstLines, usize>
    ensures { ReadFronted text.now result }
{
    let front = textreading::line_end(text, 0);
    if !check::same(&text[..front], b"mode=gathered\n") {
        return Err(1);
    }
    match reading::head(&text[front..]) {
        Ok(plain) => Ok(FirstLines {
            slip: Slip {
                mode: GATHERED,
                ..plain.slip
            },
            end: front + plain.end,
        }),
        Err(line) => Err(line + 1),
    }
}

// Whether a slip and the waiting lines of a text from a place on are sound; page and column are lent for these lines.
fn sound_on(text: &[u8], start: usize, slip: Slip, page: &mut [u64], column: &mut [i64]) -> bool
    requires all_formed { AllFormed text.now start slip }
    requires lines_in_bounds { (slip.lines ≤ length page.old) × (length page.old ≡ length column.old) }
    ensures { result ≡ sound_with gathered_mode degree_limit slip (read_as (lines_of (drop start text.now))) }
{
    put(&text[start..], page, column);
    let lines = slip.lines;
    gathering::refusal(slip, &page[..lines], &column[..lines]).is_ok()
}

// The same on local arrays. The compiler may not take this into its caller, which would then have the arrays on the stack
// where it refuses a text that it does not judge.
#[inline(never)]
fn sound(text: &[u8], start: usize, slip: Slip) -> bool
    requires { AllFormed text.now start slip }
    ensures { result ≡ sound_with gathered_mode degree_limit slip (read_as (lines_of (drop start text.now))) }
{
    if slip.lines <= FEW {
        let mut page = [0u64; FEW];
        let mut column = [0i64; FEW];
        return sound_on(text, start, slip, &mut page, &mut column);
    }
    let mut page = [0u64; PAGE_LIMIT];
    let mut column = [0i64; PAGE_LIMIT];
    sound_on(text, start, slip, &mut page, &mut column)
}

// The session whose text this is: its slip, its lines on page and coefficients and zeros after them. All is judged
// before the first word is written. Refuses 6, 21, 16 with the first line at fault, 10, 7.
pub fn load(text: &[u8], page: &mut [u64], coefficients: &mut [i64]) -> Result<Slip, Unloaded>
    ensures { Outcome (load_by gathered_form degree_limit text.now
        (page.old, coefficients.old)) (loaded_told result) (page.new, coefficients.new) }
{
    if PAGE_LIMIT < page.len() {
        return Err(not_loaded(Refusal::PageTooLong, 0));
    }
    if page.len() != coefficients.len() {
        return Err(not_loaded(Refusal::BadCoefficients, 0));
    }
    let head = match head(text) {
        Ok(head) => head,
        Err(fault) => return Err(not_loaded(Refusal::BadText, fault)),
    };
    let slip = head.slip;
    let start = head.end;
    if let Some(line) = first_fault(&text[start..]) {
        return Err(not_loaded(Refusal::BadText, line));
    }
    if page.len() < slip.lines {
        return Err(not_loaded(Refusal::PageFull, 0));
    }
    if !sound(text, start, slip) {
        return Err(not_loaded(Refusal::NotSound, 0));
    }
    put(&text[start..], page, coefficients);
    clearing::clear(page, slip.lines);
    clearing::clear(coefficients, slip.lines);
    Ok(slip)
}
