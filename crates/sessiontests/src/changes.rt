// A text with one byte changed, dropped or doubled, and cut short, at every place.
use super::board::{REFUSALS, Row};
use super::parts::{behind, front};
use super::texts::{Judged, ROOM, judge};
use std::io;
use text::writing;

// How many texts were accepted, and how many each number refused, by the change; and how many of these answers were
// right, how many wrong.
#[derive(Clone, Copy, Default)]
pub struct Changes {
    changed: Row,
    dropped: Row,
    doubled: Row,
    cut: Row,
    wrong: Row,
}

// Judges a text with other bytes at a place where one byte stood.
fn replaced(text: &[u8], place: usize, by: &[u8]) -> Judged {
    let mut bytes = [0u8; ROOM];
    let end = writing::put(front(text, place), &mut bytes, 0);
    let end = writing::put(by, &mut bytes, end);
    let end = writing::put(behind(text, place.wrapping_add(1)), &mut bytes, end);
    judge(front(&bytes, end))
}

// The line at fault in a text of so many waiting lines that is cut short to this: the first that is missing or not
// ended, unless that is a waiting line; then the sixth, which counts them, or the last where it alone is not ended.
pub fn line_cut(text: &[u8], lines: usize) -> usize {
    let ends = text.iter().filter(|byte| **byte == b'\n').count();
    if ends < 6 {
        return ends + 1;
    }
    let last = lines.wrapping_add(6);
    if (ends.wrapping_add(1) == last) & !text.ends_with(b"\n") {
        return last;
    }
    6
}

// A text cut short at a place.
fn cut(text: &[u8], place: usize, lines: usize) -> Judged {
    let cut = front(text, place);
    let judged = judge(cut);
    Judged {
        right: judged.right & (judged.line == line_cut(cut, lines)),
        ..judged
    }
}

impl Changes {
    // All changes at a place, where this byte stands. It is changed to signs, the other marks of a text, digits, and
    // what no text has.
    fn at(&mut self, text: &[u8], place: usize, byte: u8, lines: usize) {
        for other in b"+-,;=\n0129 a" {
            let judged = replaced(text, place, &[*other]);
            judged.enter(&mut self.changed, &mut self.wrong);
        }
        let judged = replaced(text, place, b"");
        judged.enter(&mut self.dropped, &mut self.wrong);
        let judged = replaced(text, place, &[byte, byte]);
        judged.enter(&mut self.doubled, &mut self.wrong);
        let judged = cut(text, place, lines);
        judged.enter(&mut self.cut, &mut self.wrong);
    }

    // All changes of a text of so many waiting lines.
    pub fn all(&mut self, text: &[u8], lines: usize) {
        for (place, byte) in text.iter().enumerate() {
            self.at(text, place, *byte, lines);
        }
    }

    pub fn print_all(&self, rt: &impl Print) -> io::Result<()> {
        let name = b"texts with a byte changed, 0 for accepted:";
        self.changed.print(rt, name, REFUSALS)?;
        let name = b"texts with a byte dropped:";
        self.dropped.print(rt, name, REFUSALS)?;
        let name = b"texts with a byte doubled:";
        self.doubled.print(rt, name, REFUSALS)?;
        self.cut.print(rt, b"texts cut short:", REFUSALS)?;
        self.wrong.print(rt, b"right and wrong:", 2)
    }
}
