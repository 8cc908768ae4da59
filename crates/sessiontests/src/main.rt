// Runs the sessions of document 01 and the texts of P1's issue, texts with one byte changed, and a long random run of
// sessions, with saves and loads in between, beside a twin that is never watched and never previewed. What is compared:
// the twin's answers, page and text, the settled sum with the waiting characters, the steps and the lines counted, the
// new lines with those found without the library, that 18 comes exactly where the strip is too short for them, 19 where
// it does not begin with them, 10 where the page has no room for the lines and 17 where the bytes have none for the
// text, that a load gives back what was saved, and that a refused call changes nothing. Tests are joined by `&`, which
// has no branch, so that there is less to prove.

#![tactic(auto)]

mod board;
mod calls;
mod changes;
mod comparing;
mod drawing;
mod examples;
mod loads;
mod parts;
mod refused;
mod runs;
mod saves;
mod steps;
mod striking;
mod strips;
mod texts;

use changes::Changes;
use std::io;
use testing::{Tally, print};

// Texts with one byte changed, dropped or doubled, and cut short: how many were accepted, and how many each number from
// 1 to 19 refused; and how many of these answers were right, how many wrong.
fn print_changes(rt: &impl Print) -> io::Result<()> {
    let mut changes = Changes::default();
    changes.all(
        b"degree=5\nshape=3,2\nclass=3,2\nsteps=1\nsettled=0\nlines=1\nline=-;1,1;2\n",
        1,
    );
    changes.all(
        b"degree=12\nshape=10,2\nclass=9,3\nsteps=4\nsettled=-12\nlines=2\nline=+;2,2;4\nline=-;10,1;6,5\n",
        2,
    );
    changes.print_all(rt)
}

// Lines of openings, previews, commits, saves and loads: how many were accepted, and how many each number from 1 to 19
// refused. A line of calls by what was wrong: how many had nothing wrong, then 1 for the twin, 2 for a refused call, 4
// for an accepted one, 8 for the sum, 16 for the refusal number, the number of lines or the line at fault, added up.
fn print_run(rt: &impl Print) -> io::Result<()> {
    runs::all().print_all(rt)
}

fn main(rt: HostRuntime) -> io::Result<()> {
    print(
        &rt,
        b"document 01",
        Tally::new()
            .add(examples::no_word())
            .add(examples::one_word())
            .add(examples::no_line())
            .add(examples::both(3, 0x9000_0000_2000_0000, 2))
            .add(examples::both(2, 0x3800_0000_1000_0000, 3))
            .add(examples::no_hook())
            .add(examples::too_long_to_strike()),
    )?;
    print(
        &rt,
        b"ones in front",
        Tally::new()
            .add(examples::opened_in_front())
            .add(examples::kept_in_front()),
    )?;
    print(
        &rt,
        b"put away and taken up again",
        Tally::new()
            .add(examples::put_away(
                b"degree=5\nshape=3,2\nclass=3,2\nsteps=1\nsettled=0\nlines=1\nline=-;1,1;2\n",
            ))
            .add(examples::too_long()),
    )?;
    print(&rt, b"texts refused at their lines", refused::all())?;
    print_changes(&rt)?;
    print_run(&rt)
}
