// A random run of sessions on one page and one strip, with saves and loads in between.
use super::board::{REFUSALS, Row};
use super::calls::opens;
use super::comparing::watches;
use super::drawing::{FIRST, PAGE, next};
use super::saves::Saved;
use super::strips::STRIP;
use super::texts::ROOM;
use pages::Slip;
use std::io;

const CALLS: u32 = 10000;

// How many calls of each kind were accepted, and how many each number refused; and calls by what was wrong.
#[derive(Clone, Copy, Default)]
pub struct Board {
    pub openings: Row,
    pub previews: Row,
    pub commits: Row,
    pub saves: Row,
    pub loads: Row,
    pub elsewhere: Row,
    pub wrong: Row,
}

impl Board {
    pub fn print_all(&self, rt: &impl Print) -> io::Result<()> {
        let name = b"openings, 0 for accepted:";
        self.openings.print(rt, name, REFUSALS)?;
        self.previews.print(rt, b"previews:", REFUSALS)?;
        self.commits.print(rt, b"commits:", REFUSALS)?;
        self.saves.print(rt, b"saves:", REFUSALS)?;
        self.loads.print(rt, b"loads:", REFUSALS)?;
        let name = b"loads on pages of 0 to 24 words:";
        self.elsewhere.print(rt, name, REFUSALS)?;
        let name = b"calls by what was wrong, 0 for nothing:";
        self.wrong.print(rt, name, 32)
    }
}

// Where a run stands, with its twin: slip, page and strip, the text of its last save, and what that put away.
#[derive(Clone, Copy)]
pub struct Run {
    pub slip: Slip,
    pub page: [u64; PAGE],
    pub twin: [u64; PAGE],
    pub strip: [u64; STRIP],
    pub text: [u8; ROOM],
    pub other: [u8; ROOM],
    pub saved: Saved,
    pub board: Board,
}

impl Run {
    // A run starts with degree 0 opened and saved.
    fn new() -> Run {
        let page = [0; PAGE];
        let mut text = [0; ROOM];
        let slip = Slip {
            settled: 1,
            ..pages::BLANK
        };
        let length = sessiontext::save(slip, &page, &mut text).unwrap_or(0);
        Run {
            slip,
            page,
            twin: page,
            strip: [0; STRIP],
            text,
            other: text,
            saved: Saved {
                slip,
                page,
                shown: watches(slip, &page),
                length,
            },
            board: Board::default(),
        }
    }

    // The next call: one in sixteen is a save, and one a load.
    fn turn(&mut self, word: u64) {
        if word >> 60 == 0 {
            let found = self.save(word);
            found.enter(&mut self.board.saves, &mut self.board.wrong);
        } else if word >> 60 == 1 {
            let beside = self.load_elsewhere(word);
            beside.enter(&mut self.board.elsewhere, &mut self.board.wrong);
            let found = self.load(word);
            found.enter(&mut self.board.loads, &mut self.board.wrong);
        } else if opens(self.slip, word) {
            let found = self.open(word);
            found.enter(&mut self.board.openings, &mut self.board.wrong);
        } else {
            self.step(word);
        }
    }
}

// Every other word of the generator is left to steps, for their strips.
pub fn all() -> Board {
    let mut run = Run::new();
    let mut word = FIRST;
    for _ in 0..CALLS {
        word = next(next(word));
        run.turn(word);
    }
    run.board
}
