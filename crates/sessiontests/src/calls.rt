// A random opening with its checks. The twin gets it after the run has had it: until then its page has the words that
// the run's page had before.
use super::board::Row;
use super::comparing::conserved;
use super::drawing::{asked_words, in_front};
use super::runs::Run;
use pages::{BLANK, Slip};
use testing::numbers;
use words::Refusal;

// A call's outcome: why it was refused, if it was, and what was wrong with it (0: nothing).
#[derive(Clone, Copy)]
pub struct Outcome {
    pub refused: Option<Refusal>,
    pub wrong: usize,
}

impl Outcome {
    // One call more, in a row by what refused it and in one by what was wrong.
    pub fn enter(self, row: &mut Row, wrong: &mut Row) {
        row.tell(self.refused);
        wrong.add(self.wrong);
    }
}

// What was right of a call: the twin, that a refused one changes nothing, what comes of an accepted one, the sum, and
// the refusal number, the number of lines or the line at fault.
#[derive(Clone, Copy)]
pub struct Right {
    pub twins: bool,
    pub stays: bool,
    pub comes: bool,
    pub sums: bool,
    pub tells: bool,
}

impl Right {
    // What was wrong: 1 for the twin, then 2, 4, 8 and 16, added up.
    pub fn wrong(self) -> usize {
        let twins = usize::from(!self.twins);
        let stays = usize::from(!self.stays);
        let comes = usize::from(!self.comes);
        let sums = usize::from(!self.sums);
        let tells = usize::from(!self.tells);
        twins | stays << 1 | comes << 2 | sums << 3 | tells << 4
    }
}

// Whether an opening is drawn: seldom, and mostly where no line waits.
pub fn opens(run: Slip, word: u64) -> bool {
    (word % 32 == 0) | ((word % 16 < 12) & (run.lines == 0))
}

// Whether a slip asks for another's words, with so many steps more.
pub fn counted(slip: Slip, other: Slip, steps: i64) -> bool {
    (slip.shape == other.shape)
        & (slip.class == other.class)
        & (slip.steps == numbers::sum(other.steps, steps))
}

impl Run {
    // A drawn opening. It has a line, unless it is of degree 0, so there is always room for it. The run's word has up
    // to three ones more in front than the twin's, and both get the slip and the page of the good word.
    pub fn open(&mut self, word: u64) -> Outcome {
        let (shape, class) = asked_words(word);
        let good = Slip {
            shape: words::shapes::good(shape).map_or(0, |good| good.word),
            class,
            ..BLANK
        };
        let handed = sessions::open(in_front(shape, word), class, &mut self.page);
        let kept = self.page == self.twin;
        let other = sessions::open(shape, class, &mut self.twin);
        let lines = usize::from(good.shape != 0);
        let (stays, comes, tells) = match handed {
            Ok(slip) => (true, counted(slip, good, 0), slip.lines == lines),
            Err(refused) => (
                kept & (refused.slip == BLANK),
                true,
                refused.refusal.number() != 10,
            ),
        };
        self.slip = handed.unwrap_or(self.slip);
        let right = Right {
            twins: (self.page == self.twin) & (handed == other),
            stays,
            comes,
            sums: conserved(self.slip, &self.page),
            tells,
        };
        Outcome {
            refused: handed.err().map(|refused| refused.refusal),
            wrong: right.wrong(),
        }
    }
}
