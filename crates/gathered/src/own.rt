// A line of the gathered mode by itself, its coefficient left out: the one line of a plain session.
ghost use Rattle.std.specs.Prelude.{◌≡◌, pos};
ghost use Rattle.theory.specs.Limits.{degree_limit};
ghost use Rattle.pages.specs.Page.{line_of};
ghost use Rattle.pages.specs.Mode.{weighted};
ghost use Rattle.pages.specs.Sound.Laws.{SoundLine};
ghost use Rattle.characters.specs.Watch.{quotient, reads, ratio as ratioOf};
ghost use Rattle.gathered.specs.Private.Alone.{alone as aloneOf};

use characters::{Watched, watches};
use pages::{PLAIN, Slip};

// The slip of the plain session that has this line and no other.
pub fn alone(line: u64) -> Slip
    ensures { result ≡ aloneOf line }
{
    Slip {
        shape: linewords::shape(line),
        class: linewords::class(line),
        settled: 0,
        lines: 1,
        steps: 0,
        mode: PLAIN,
    }
}

// The ratio of the line: the plain watch of its kind.
pub fn ratio(line: u64) -> Watched
    requires { SoundLine degree_limit (weighted line (pos 1)) }
    ensures { reads result ≡ (0, quotient (ratioOf (line_of line))) }
{
    let page = [line];
    watches::watch(alone(line), &page, 2, 0)
}
