// Runs the calls of `characters` and `classcolumns` over all classes, shapes and ranks of degree 0 to 16 and at their
// borders. What they answer is compared with formula (2b) of document 000 and the largest degrees of document 004,
// which are no theorems here, with formulae (4) and (5), and with each other. A line to a check; none may be wrong.
// Tests are joined by `&`, which has no branch, so that there is less to prove.

#![tactic(auto)]

mod borders;
mod columns;
mod degrees;
mod lists;
mod numbers;
mod products;
mod ranks;
mod singles;
mod walk;

use std::io;
use testing::print;

fn main(rt: HostRuntime) -> io::Result<()> {
    let found = walk::all();
    found.columns.print_all(&rt)?;
    print(&rt, b"columns are orthogonal, formula (2b)", found.products)?;
    found.degrees.print_all(&rt)?;
    print(&rt, b"single characters to degree 14", found.singles)?;
    found.ranks.print_all(&rt)?;
    print(&rt, b"degree above 16, 12", ranks::above())?;
    print(&rt, b"pairs at a border", borders::pairs())?;
    print(&rt, b"shapes at a border", borders::shapes())?;
    print(&rt, b"classes at a border", borders::classes())
}
