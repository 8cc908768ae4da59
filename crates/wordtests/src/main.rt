// Runs the calls of `words` and `oldlists`, and the listing, on all 915 partitions of degree 0 to 16 and at every
// border, and compares what they answer with what is counted here from the parts, without digits. A line to a check;
// none may be wrong. Tests are joined by `&`, which has no branch, so that there is less to prove.

#![tactic(auto)]

mod borders;
mod class_data;
mod columns;
mod conjugates;
mod in_front;
mod old_lists;
mod partitions;
mod walk;

use std::io;
use testing::print;
use walk::Found;

fn print_words(rt: &impl Print, found: Found) -> io::Result<()> {
    print(rt, b"shape word there and back", found.shapes)?;
    print(rt, b"class word there and back", found.classes)?;
    print(rt, b"class words rise", found.rises)?;
    print(rt, b"the listing has it at this rank", found.listed)?;
    print(rt, b"columns too short and longer", found.columns)?;
    print(rt, b"old form and new", found.forms)?;
    print(rt, b"with ones in front, as many as fit", found.in_front)
}

fn print_told(rt: &impl Print, found: Found) -> io::Result<()> {
    print(rt, b"conjugate", found.conjugates)?;
    print(rt, b"sign", found.signs)?;
    print(rt, b"period", found.periods)?;
    print(rt, b"class sizes sum to n!", found.sizes)
}

fn main(rt: HostRuntime) -> io::Result<()> {
    let found = walk::all(&rt)?;
    print_words(&rt, found)?;
    print_told(&rt, found)?;
    print(&rt, b"words at a border, E4, E6", borders::words())?;
    print(
        &rt,
        b"ones in front at a border, E4",
        borders::ones_in_front(),
    )?;
    print(&rt, b"lists at a border, E1, E2, E3, E5", borders::lists())?;
    print(
        &rt,
        b"all partitions in one list, to the old form and back",
        old_lists::all(),
    )?;
    print(&rt, b"lists of shapes at a border", old_lists::borders())
}
