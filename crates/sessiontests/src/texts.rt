// Texts of sessions of at most sixteen lines, and marks where nothing is to be written.
use super::board::Row;
use super::drawing::PAGE;
use super::parts::front_mut;
use pages::{BLANK, Slip};
use sessiontext::Unloaded;
use words::Refusal;

// How many bytes are enough for any text of sixteen lines, and one more.
pub const ROOM: usize = 1409;

// A byte that no text has, and a word that is no line.
pub const MARK: u8 = 7;

pub const WORD: u64 = 7;

pub fn marked(bytes: &[u8]) -> bool {
    bytes.iter().all(|byte| *byte == MARK)
}

pub fn marked_words(words: &[u64]) -> bool {
    words.iter().all(|word| *word == WORD)
}

// Whether a session is saved as this text, to just as many bytes and none behind, and one byte less is refused 17 and
// stays as it was.
pub fn just_fits(slip: Slip, page: &[u64], text: &[u8]) -> bool {
    let mut bytes = [MARK; ROOM];
    let length = text.len();
    let short = sessiontext::save(slip, page, front_mut(&mut bytes, length.wrapping_sub(1)));
    let stays = marked(&bytes);
    let full = sessiontext::save(slip, page, front_mut(&mut bytes, length));
    (short.map_err(Refusal::number) == Err(17))
        & stays
        & (full == Ok(length))
        & bytes.strip_prefix(text).is_some_and(marked)
}

// Whether a load is refused by this number, at no line, and hands back a blank slip.
pub fn is_unloaded(loaded: Result<Slip, Unloaded>, number: u8) -> bool {
    loaded.is_err_and(|unloaded| {
        (unloaded.refusal.number() == number) & (unloaded.line == 0) & (unloaded.slip == BLANK)
    })
}

// What became of a text that was loaded: why it was refused, if it was, and at what line; and whether that is as
// promised.
#[derive(Clone, Copy)]
pub struct Judged {
    pub refused: Option<Refusal>,
    pub line: usize,
    pub right: bool,
}

impl Judged {
    // One text more, in a row by what refused it and in one by whether that was wrong.
    pub fn enter(self, row: &mut Row, wrong: &mut Row) {
        row.tell(self.refused);
        wrong.add(usize::from(!self.right));
    }
}

// Loads a text. What is accepted is the text that saving gives again; a refusal leaves the page as it was and the slip
// blank, and names a line where it is 16.
pub fn judge(text: &[u8]) -> Judged {
    let mut page = [WORD; PAGE];
    match sessiontext::load(text, &mut page) {
        Ok(slip) => Judged {
            refused: None,
            line: 0,
            right: just_fits(slip, &page, text),
        },
        Err(unloaded) => Judged {
            refused: Some(unloaded.refusal),
            line: unloaded.line,
            right: (unloaded.slip == BLANK)
                & marked_words(&page)
                & ((unloaded.line == 0) == (unloaded.refusal.number() != 16)),
        },
    }
}

// Whether a text is refused by a number and, where that is 16, at a line.
pub fn refuses(text: &[u8], number: u8, line: usize) -> bool {
    let judged = judge(text);
    let refused = judged.refused.map(Refusal::number);
    judged.right & (refused == Some(number)) & (judged.line == line)
}
