// Drawn loads of what a run put away, with their checks. The twin gets each after the run has had it, as in `calls`.
use super::calls::{Outcome, Right};
use super::changes::line_cut;
use super::comparing::{conserved, watches};
use super::drawing::below;
use super::parts::{front, front_mut};
use super::runs::Run;
use super::texts::{WORD, is_unloaded, marked_words};
use pages::BLANK;

// Whether a page has these lines in front, then zeros up to `room`, and marks behind.
fn holds(page: &[u64], lines: &[u64], room: usize) -> bool {
    let Some((page, rest)) = page.split_at_checked(room) else {
        return false;
    };
    let zeros = page
        .strip_prefix(lines)
        .is_some_and(|zeros| zeros.iter().all(|word| *word == 0));
    zeros & marked_words(rest)
}

impl Run {
    // A drawn load onto the run's page; now and then the text is cut short. The line that is at fault is then the one
    // that tells where.
    pub fn load(&mut self, word: u64) -> Outcome {
        let cut = word % 4 == 0;
        let length = if cut {
            below(word >> 8, self.saved.length) as usize
        } else {
            self.saved.length
        };
        let text = front(&self.text, length);
        let loaded = sessiontext::load(text, &mut self.page);
        let kept = self.page == self.twin;
        let other = sessiontext::load(front(&self.other, length), &mut self.twin);
        let (stays, comes, tells) = match loaded {
            Ok(slip) => {
                let back = (slip == self.saved.slip)
                    & (self.page == self.saved.page)
                    & (watches(slip, &self.page) == self.saved.shown);
                (true, back, !cut)
            }
            Err(unloaded) => {
                let fault = line_cut(text, self.saved.slip.lines);
                let told = (unloaded.refusal.number() == 16) & (unloaded.line == fault);
                (kept & (unloaded.slip == BLANK), true, cut & told)
            }
        };
        self.slip = loaded.unwrap_or(self.slip);
        let right = Right {
            twins: (self.page == self.twin) & (loaded == other),
            stays,
            comes,
            sums: conserved(self.slip, &self.page),
            tells,
        };
        Outcome {
            refused: loaded.err().map(|unloaded| unloaded.refusal),
            wrong: right.wrong(),
        }
    }

    // A load beside the run, on a page of 0 to 24 words: 10 exactly where the lines are more, and then nothing is
    // written; else all is as it was saved, with zeros after the lines.
    pub fn load_elsewhere(&self, word: u64) -> Outcome {
        let saved = &self.saved;
        let room = below(word >> 32, 25) as usize;
        let mut page = [WORD; 24];
        let text = front(&self.text, saved.length);
        let loaded = sessiontext::load(text, front_mut(&mut page, room));
        let lines = front(&saved.page, saved.slip.lines);
        let tells = if room < saved.slip.lines {
            is_unloaded(loaded, 10) & marked_words(&page)
        } else {
            (loaded == Ok(saved.slip))
                & holds(&page, lines, room)
                & (watches(saved.slip, front(&page, room)) == saved.shown)
        };
        let right = Right {
            twins: true,
            stays: true,
            comes: true,
            sums: true,
            tells,
        };
        Outcome {
            refused: loaded.err().map(|unloaded| unloaded.refusal),
            wrong: right.wrong(),
        }
    }
}
