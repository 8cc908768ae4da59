// Waiting lines (document 01, "Slip and page"): a line is struck by a cycle of its class.
ghost use Rattle.std.specs.Prelude.{◌≡◌, ◌<◌, ◌^◌};
ghost use Rattle.theory.specs.Bounds.Laws.{largest_limit};
ghost use Rattle.words.specs.Answers.{Outcome};
ghost use Rattle.pages.specs.Page.{line_of};
ghost use Rattle.sessions.specs.Private.Striking.{class_without, multiplied, Strikes, stripped};

use words::parts::Parts;

// The hook lines of a line: how many were put on a strip, and the sum of the signs of those that leave the empty shape.
#[derive(Clone, Copy, Debug, PartialEq, Eq)]
pub struct HookLines {
    pub count: usize,
    pub settled: i64,
}

// A class without one cycle, where it has it: its parts are read until the cycle stands there, and what stands behind it
// moves up.
pub fn strike(class: u32, cycle: u64) -> Option<u32>
    requires { class < 2 ^ 31 }
    ensures { result ≡ class_without cycle class }
{
    let mut left = 31u32;
    for part in Parts::of(class) {
        let behind = left - part;
        if part as u64 == cycle {
            let moved = (class % (1u32 << behind)) << part;
            return Some(class - class % (1u32 << left) + moved);
        }
        left = behind;
    }
    None
}

// The sign of a product: whether just one of the two is minus.
fn product(a: bool, b: bool) -> bool
    ensures { result ≡ multiplied a b }
{
    if a { !b } else { b }
}

// The hook lines of a line that is struck by a cycle, `class` being its class without it: those that wait go to the
// front of a strip, in hook order; the signs of those that leave the empty shape are summed.
pub fn strip(line: u64, cycle: u32, class: u32, strip: &mut [u64]) -> HookLines
    requires { Strikes largest_limit cycle (line_of line) class strip.old }
    ensures { Outcome (stripped cycle (line_of line) strip.old) result strip.new }
{
    let shape = linewords::shape(line);
    let minus = linewords::minus(line);
    let mut count = 0;
    let mut settled = 0i64;
    for hook in hooks::of(shape, cycle) {
        let sign = product(minus, hook.minus);
        if hook.leaves == 0 {
            settled += hooks::sign(sign);
        } else {
            strip[count] = linewords::word(sign, hook.leaves, class);
            count += 1;
        }
    }
    HookLines { count, settled }
}
