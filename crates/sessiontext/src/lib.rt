// A session put away as text, and taken up again (document 02, P1). Every call takes every input; a refused call writes
// nothing.

#![tactic(auto)]

ghost use Rattle.std.specs.Prelude.{◌≡◌, ◌≤◌};
ghost use Rattle.theory.specs.Basics.{length, map, ◌≤?◌};
ghost use Rattle.theory.specs.Limits.{degree_limit, page_limit};
ghost use Rattle.std.specs.declared.result.Result.TheVariants.{Err};
ghost use Rattle.words.specs.Answers.{Outcome, count_told, number_of};
ghost use Rattle.pages.specs.Page.{line_of, blank};
ghost use Rattle.sessiontext.specs.SessionText.{session_text};
ghost use Rattle.sessiontext.specs.SessionText.Storable.{Storable};
ghost use Rattle.sessiontext.specs.Calls.{loaded, loaded_told, save_into, load_into};

use pages::{BLANK, PAGE_LIMIT, Slip, soundness};
use words::Refusal;

mod coefficients;
pub mod gathered;
mod lengths;
mod numbers;
mod partitions;
mod reading;
mod straight;
mod waiting;
mod weighted;
mod writing;

// How many bytes are enough for the first six lines of a text.
const HEAD_ROOM: usize = 256;

// Why a load is refused, where that is 16 the text's line that is at fault, from 1, and the blank slip that is handed
// back.
#[derive(Clone, Copy, PartialEq, Eq)]
pub struct Unloaded {
    pub refusal: Refusal,
    pub line: usize,
    pub slip: Slip,
}

// Whether the text of a session has room in so many bytes. Where they are not enough for any text of so many lines, its
// length is told, that of the first six lines by a writing on no bytes.
fn has_room(slip: Slip, lines: &[u64], room: usize) -> bool
    requires { Storable degree_limit slip (map line_of lines.now) × (length lines.now ≤ page_limit) }
    ensures { result ≡ (length (session_text slip (map line_of lines.now)) ≤? room) }
{
    if HEAD_ROOM + lines.len() * writing::LINE_ROOM <= room {
        return true;
    }
    let mut nothing = [0u8; 0];
    let head = writing::head(slip, lines.len(), &mut nothing, 0);
    head + lengths::all(lines) <= room
}

// The text of a session, at the front of lent bytes; its length is the answer, and the other bytes stay. Refuses 6, 7,
// 17.
pub fn save(slip: Slip, page: &[u64], text: &mut [u8]) -> Result<usize, Refusal>
    ensures { Outcome (save_into degree_limit slip page.now text.old)
        (count_told result) text.new }
{
    soundness::refusal(slip, page)?;
    let lines = slip.lines;
    if !has_room(slip, &page[..lines], text.len()) {
        return Err(Refusal::BufferTooShort);
    }
    Ok(writing::session(slip, &page[..lines], text, 0))
}

// A refused load.
fn not_loaded(refusal: Refusal, line: usize) -> Unloaded
    ensures { loaded_told (Err result) ≡ loaded (number_of refusal) line blank }
{
    Unloaded {
        refusal,
        line,
        slip: BLANK,
    }
}

// The session whose text this is: its slip, its lines on the page and zeros after them. The text is read twice, so that
// the page is written only once all is judged. Refuses 6, 16 with the first line at fault, 10, 7.
pub fn load(text: &[u8], page: &mut [u64]) -> Result<Slip, Unloaded>
    ensures { Outcome (load_into degree_limit text.now page.old) (loaded_told result) page.new }
{
    if PAGE_LIMIT < page.len() {
        return Err(not_loaded(Refusal::PageTooLong, 0));
    }
    let head = match reading::head(text) {
        Ok(head) => head,
        Err(fault) => return Err(not_loaded(Refusal::BadText, fault)),
    };
    let slip = head.slip;
    let lines = &text[head.end..];
    let enough = match waiting::judge(lines, soundness::budget(slip)) {
        Ok(enough) => enough,
        Err(line) => return Err(not_loaded(Refusal::BadText, line)),
    };
    if page.len() < slip.lines {
        return Err(not_loaded(Refusal::PageFull, 0));
    }
    if !enough {
        return Err(not_loaded(Refusal::NotSound, 0));
    }
    waiting::put(lines, page);
    clearing::clear(page, slip.lines);
    Ok(slip)
}
