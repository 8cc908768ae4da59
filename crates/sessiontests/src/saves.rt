// Drawn saves of a run, with their checks. The twin gets each after the run has had it, as in `calls`: until then its
// text has the bytes that the run's text had before.
use super::calls::{Outcome, Right};
use super::comparing::{Shown, watches};
use super::drawing::{PAGE, asked, below};
use super::parts::{behind, front, front_mut};
use super::runs::Run;
use super::texts::{ROOM, just_fits};
use pages::Slip;
use words::Refusal;

// What a run put away last: slip and page, what the watches showed, and how long the text is.
#[derive(Clone, Copy)]
pub struct Saved {
    pub slip: Slip,
    pub page: [u64; PAGE],
    pub shown: Shown,
    pub length: usize,
}

// The bytes lent to a save: mostly enough for any text, and now and then few.
fn room(word: u64) -> usize {
    if (word >> 8) % 4 == 0 {
        below(word >> 10, 256) as usize
    } else {
        ROOM
    }
}

// Whether a save to so many bytes is refused as one to enough bytes is, and by 17 exactly where they are too few.
fn has_room(slip: Slip, page: &[u64; PAGE], room: usize, answer: Result<usize, Refusal>) -> bool {
    let mut bytes = [0u8; ROOM];
    let whole = sessiontext::save(slip, page, &mut bytes);
    let refused = answer.err().map(Refusal::number);
    if whole.is_ok_and(|length| room < length) {
        refused == Some(17)
    } else {
        refused == whole.err().map(Refusal::number)
    }
}

impl Run {
    // A drawn save. Now and then a bit of the slip is turned, or the bytes are few.
    pub fn save(&mut self, word: u64) -> Outcome {
        let slip = asked(self.slip, word);
        let room = room(word);
        let answer = sessiontext::save(slip, &self.page, front_mut(&mut self.text, room));
        let length = answer.unwrap_or(0);
        let stays = behind(&self.text, length) == behind(&self.other, length);
        let second = sessiontext::save(slip, &self.twin, front_mut(&mut self.other, room));
        let twins = (self.text == self.other) & (answer == second);
        let exact = answer.is_err() || just_fits(slip, &self.page, front(&self.text, length));
        if answer.is_ok() {
            self.saved = Saved {
                slip,
                page: self.page,
                shown: watches(slip, &self.page),
                length,
            };
        }
        let right = Right {
            twins,
            stays,
            comes: exact,
            sums: true,
            tells: has_room(slip, &self.page, room, answer),
        };
        Outcome {
            refused: answer.err(),
            wrong: right.wrong(),
        }
    }
}
