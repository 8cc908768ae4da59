// A preview and a commit of a run with their checks. The twin gets the commit alone, with the same strip, after the run
// has had it, as in `calls`.
use super::calls::{Outcome, Right, counted};
use super::comparing::{conserved, stepped, watches};
use super::drawing::{PAGE, Strike, asked, drawn, next};
use super::parts::{front, front_mut};
use super::runs::Run;
use super::striking::{New, struck};
use super::strips::{STRIP, handed, holds, room};
use words::Refusal;

// What must come of a preview on so many words, what must come of the strike being given: 18 where they are too few.
fn previewed(new: Result<New, u8>, room: usize) -> Result<New, u8> {
    let new = new?;
    if room.min(STRIP) < new.count {
        return Err(18);
    }
    Ok(new)
}

// What must come of a commit with a strip, what must come of the strike being given: 19 where the strip does not begin
// with its lines, then 10 where more lines would wait than the page has words.
fn committed(strike: Strike, new: Result<New, u8>, strip: &[u64]) -> Result<New, u8> {
    let new = new?;
    if !strip.starts_with(new.lines()) {
        return Err(19);
    }
    if strike.slip.lines.wrapping_add(new.count) > PAGE + 1 {
        return Err(10);
    }
    Ok(new)
}

impl Run {
    // A preview on the first words of the run's strip. What must come of the strike is given: its lines come to the
    // front of the strip, or it is refused 18 where the words are too few. The page has the same words and shows the
    // same watches after.
    fn preview(&mut self, strike: Strike, new: Result<New, u8>, room: usize) -> Outcome {
        let Strike { slip, line, cycle } = strike;
        let before = self.strip;
        let shown = watches(slip, &self.page);
        let strip = front_mut(&mut self.strip, room);
        let answer = sessions::preview(slip, &self.page, line, cycle, strip);
        let lines = new.unwrap_or_default();
        let fills = (answer == Ok(lines.count)) & holds(&self.strip, lines.lines(), &before);
        let right = Right {
            twins: (self.page == self.twin) & (watches(slip, &self.page) == shown),
            stays: answer.is_ok() | (self.strip == before),
            comes: answer.is_err() | fills,
            sums: true,
            tells: answer.err().map(Refusal::number) == previewed(new, room).err(),
        };
        Outcome {
            refused: answer.err(),
            wrong: right.wrong(),
        }
    }

    // A commit with a strip, what must come of the strike being given.
    fn commit(&mut self, strike: Strike, new: Result<New, u8>, strip: &[u64]) -> Outcome {
        let Strike { slip, line, cycle } = strike;
        let handed = sessions::commit(slip, &mut self.page, line, cycle, strip);
        let expected = committed(strike, new, strip).err();
        let new = new.unwrap_or_default();
        let (stays, comes, tells) = match handed {
            Ok(after) => {
                let moves = stepped(&self.page, &self.twin, strike, &new);
                let lines = after.lines.wrapping_add(1) == slip.lines.wrapping_add(new.count);
                (
                    true,
                    counted(after, slip, 1) & moves,
                    expected.is_none() & lines,
                )
            }
            Err(refused) => {
                let stays = (self.page == self.twin) & (refused.slip == slip);
                (stays, true, expected == Some(refused.refusal.number()))
            }
        };
        let other = sessions::commit(slip, &mut self.twin, line, cycle, strip);
        self.slip = handed.unwrap_or(self.slip);
        let right = Right {
            twins: (self.page == self.twin) & (handed == other),
            stays,
            comes,
            sums: conserved(self.slip, &self.page),
            tells,
        };
        Outcome {
            refused: handed.err().map(|refused| refused.refusal),
            wrong: right.wrong(),
        }
    }

    // A drawn step: a preview on the run's strip, of which one word is drawn anew, and a commit with what is drawn of
    // it.
    pub fn step(&mut self, word: u64) {
        let strike = drawn(asked(self.slip, word), word, &self.page);
        let new = struck(self.slip, strike, &self.page);
        let count = new.map_or(0, |new| new.count);
        let before = self.strip;
        let word = next(word);
        self.strip[(word >> 8) as usize % STRIP] = word;
        let seen = self.preview(strike, new, room(count, word >> 16));
        seen.enter(&mut self.board.previews, &mut self.board.wrong);
        let strip = handed(self.strip, before, count, word >> 32);
        let lent = room(count, word >> 24);
        let found = self.commit(strike, new, front(&strip, lent));
        found.enter(&mut self.board.commits, &mut self.board.wrong);
    }
}
