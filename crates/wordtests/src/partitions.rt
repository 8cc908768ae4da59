// The partitions of a degree up to 16 in decreasing lexicographic order.
ghost use Rattle.std.specs.Prelude.{◌≤◌};

// The greatest number of parts.
const MOST: usize = 16;

// A partition: its parts stand in front.
#[derive(Clone, Copy)]
pub struct Partition {
    row: [u8; MOST],
    count: usize,
    ghost within: { count ≤ 16 },
}

// From a place on, the longest parts that are at most `longest` and sum to `left`.
fn filled(mut row: [u8; MOST], from: usize, longest: u8, mut left: u8) -> Partition
    requires { from ≤ 16 }
{
    for at in from..MOST {
        if left == 0 {
            return Partition { row, count: at };
        }
        let part = longest.min(left);
        row[at] = part;
        left -= part;
    }
    Partition { row, count: MOST }
}

impl Partition {
    // The first partition of n has one part, or none where n is 0.
    pub fn first(n: u8) -> Partition {
        filled([0; MOST], 0, n, n)
    }

    pub fn parts(&self) -> &[u8] {
        &self.row[..self.count]
    }

    // The partition that follows: the last part above 1 falls by one. None follows the last.
    pub fn next(&self) -> Option<Partition> {
        let mut left = 0u8;
        for at in (0..self.count).rev() {
            let part = self.row[at];
            left = left.wrapping_add(part);
            if 1 < part {
                return Some(filled(self.row, at, part - 1, left));
            }
        }
        None
    }
}
