// The runs of document 01, "Examples to prove (E) and to run", on pages of no word and of one, each step a preview on
// marks and its commit; the text that P1's issue shows, and a page that is too long.
use super::texts::{MARK, WORD, is_unloaded, just_fits, marked, marked_words};
use pages::{BLANK, Slip};
use sessions::Refused;
use words::Refusal;

// Whether a call is refused by this number and hands back this slip.
fn is_refused(answer: Result<Slip, Refused>, number: u8, slip: Slip) -> bool {
    answer.is_err_and(|refused| (refused.refusal.number() == number) & (refused.slip == slip))
}

// No word: degree 0 opens with settled 1, and (1) on (1) is refused.
pub fn no_word() -> bool {
    let mut page = [0u64; 0];
    let opened = sessions::open(0, 0, &mut page);
    let full = sessions::open(0x2000_0000, 0x4000_0000, &mut page);
    opened.is_ok_and(|slip| slip.settled == 1) & is_refused(full, 10, BLANK)
}

// One word: (2,1) on (1^3), struck by 1, has no room for two lines, nor has a strip of one word, which is not their
// preview.
pub fn one_word() -> bool {
    let mut page = [WORD; 1];
    let mut short = [WORD; 1];
    let mut strip = [WORD; 3];
    let slip = sessions::open(0x2800_0000, 0x7000_0000, &mut page).unwrap_or(BLANK);
    let unseen = sessions::preview(slip, &page, 0, 1, &mut short);
    let kept = marked_words(&short);
    let seen = sessions::preview(slip, &page, 0, 1, &mut strip);
    let other = sessions::commit(slip, &mut page, 0, 1, &short);
    let full = sessions::commit(slip, &mut page, 0, 1, &strip);
    (unseen.map_err(Refusal::number) == Err(18))
        & kept
        & (seen == Ok(2))
        & (strip == [0x1000_0000_6000_0000, 0x3000_0000_6000_0000, WORD])
        & is_refused(other, 19, slip)
        & is_refused(full, 10, slip)
        & (page[0] == 0x2800_0000_7000_0000)
}

// One word: with 0 in place of its line, (2,1) on (1^3) is not sound.
pub fn no_line() -> bool {
    let mut page = [WORD; 1];
    let mut strip = [WORD; 3];
    let slip = sessions::open(0x2800_0000, 0x7000_0000, &mut page).unwrap_or(BLANK);
    page[0] = 0;
    let unseen = sessions::preview(slip, &page, 0, 1, &mut strip);
    let unsound = sessions::commit(slip, &mut page, 0, 1, &strip);
    (unseen.map_err(Refusal::number) == Err(7))
        & marked_words(&strip)
        & (slip.lines == 1)
        & is_refused(unsound, 7, slip)
        & (page[0] == 0)
}

// E11, E12: (3,2) on (3,2), struck by both cycles on a strip longer than any page. After the first this line is left,
// after the second none, and 1 is settled; an empty strip will do for that.
pub fn both(first: u64, line: u64, second: u64) -> bool {
    let mut page = [0u64; 1];
    let mut strip = [WORD; 4097];
    let slip = sessions::open(0x2C00_0000, 0x1400_0000, &mut page).unwrap_or(BLANK);
    let opened = page[0] == 0x2C00_0000_1400_0000;
    let one = sessions::preview(slip, &page, 0, first, &mut strip);
    let left = sessions::commit(slip, &mut page, 0, first, &strip).unwrap_or(BLANK);
    let lines = (strip[0] == line) & (page[0] == line);
    strip[0] = WORD;
    let none = sessions::preview(left, &page, 0, second, &mut strip);
    let ended = sessions::commit(left, &mut page, 0, second, &strip[..0]).unwrap_or(BLANK);
    opened
        & (one == Ok(1))
        & lines
        & (none == Ok(0))
        & marked_words(&strip)
        & (page[0] == 0)
        & (ended.lines == 0)
        & (ended.settled == 1)
        & (ended.steps == 2)
}

// E13: (2,1) on (2,1), struck by 2: no hook, no line, and 0 is settled.
pub fn no_hook() -> bool {
    let mut page = [0u64; 1];
    let mut strip = [WORD; 1];
    let slip = sessions::open(0x2800_0000, 0x3000_0000, &mut page).unwrap_or(BLANK);
    let none = sessions::preview(slip, &page, 0, 2, &mut strip);
    let ended = sessions::commit(slip, &mut page, 0, 2, &strip).unwrap_or(BLANK);
    (none == Ok(0))
        & marked_words(&strip)
        & (page[0] == 0)
        & (ended.lines == 0)
        & (ended.settled == 0)
        & (ended.steps == 1)
}

// Document 02, P6: (3,2) with a one in front opens as (3,2), and the empty shape with one as the empty shape.
pub fn opened_in_front() -> bool {
    let mut page = [WORD; 2];
    let empty = sessions::open(0x4000_0000, 0, &mut page);
    let cleared = page == [0, 0];
    let opened = sessions::open(0x5600_0000, 0x1400_0000, &mut page);
    empty.is_ok_and(|slip| (slip.shape == 0) & (slip.settled == 1))
        & cleared
        & opened.is_ok_and(|slip| (slip.shape == 0x2C00_0000) & (slip.lines == 1))
        & (page == [0x2C00_0000_1400_0000, 0])
}

// A slip or a line with a one in front is not sound.
pub fn kept_in_front() -> bool {
    let mut page = [WORD; 1];
    let mut slip = sessions::open(0x2C00_0000, 0x1400_0000, &mut page).unwrap_or(BLANK);
    let sound = sessions::page_refusal(slip, &page);
    page[0] = 0x5600_0000_1400_0000;
    let line = sessions::page_refusal(slip, &page).map_err(Refusal::number);
    page[0] = 0x2C00_0000_1400_0000;
    slip.shape = 0x5600_0000;
    let shape = sessions::page_refusal(slip, &page).map_err(Refusal::number);
    (sound == Ok(())) & (line == Err(7)) & (shape == Err(7))
}

// (3,2) on (3,2), struck by 3: minus (1,1) on (2) is left, and this text is what is saved and loaded.
pub fn put_away(text: &[u8]) -> bool {
    let shape = words::shapes::word(b"\x03\x02").unwrap_or(0);
    let class = words::classes::word(b"\x03\x02").unwrap_or(0);
    let mut page = [0u64; 1];
    let mut strip = [0u64; 1];
    let slip = sessions::open(shape, class, &mut page).unwrap_or(BLANK);
    let _ = sessions::preview(slip, &page, 0, 3, &mut strip);
    let struck = sessions::commit(slip, &mut page, 0, 3, &strip).unwrap_or(BLANK);
    let mut back = [WORD; 3];
    let loaded = sessiontext::load(text, &mut back);
    just_fits(struck, &page, text)
        & (page[0] == 0x9000_0000_2000_0000)
        & (loaded == Ok(struck))
        & (back == [page[0], 0, 0])
}

// A page of 4,097 words is refused 6, by a load whatever its text is, and by a save whatever its slip is.
pub fn too_long() -> bool {
    let mut page = [WORD; 4097];
    let loaded = sessiontext::load(b"", &mut page);
    let mut bytes = [MARK; 64];
    let saved = sessiontext::save(BLANK, &page, &mut bytes);
    is_unloaded(loaded, 6)
        & marked_words(&page)
        & (saved.map_err(Refusal::number) == Err(6))
        & marked(&bytes)
}

// Such a page is refused 6 by an opening, a preview and a commit too.
pub fn too_long_to_strike() -> bool {
    let mut page = [WORD; 4097];
    let mut strip = [WORD; 3];
    let opened = sessions::open(0, 0, &mut page);
    let seen = sessions::preview(BLANK, &page, 0, 1, &mut strip);
    let struck = sessions::commit(BLANK, &mut page, 0, 1, &strip);
    is_refused(opened, 6, BLANK)
        & (seen.map_err(Refusal::number) == Err(6))
        & marked_words(&strip)
        & is_refused(struck, 6, BLANK)
        & marked_words(&page)
}
