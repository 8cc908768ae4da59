// The listing: from a rank to a partition, as either word, and back.
use super::lists::Degree;
use std::io;
use testing::{Tally, print};
use words::Refusal;

#[derive(Clone, Copy, Default)]
pub struct Ranks {
    shapes: Tally,
    classes: Tally,
    past: Tally,
}

// Whether a rank is refused so, as a shape and as a class.
fn refused(degree: u32, rank: u32, number: u8) -> bool {
    let shape = listing::shape_at(degree, rank).map_err(Refusal::number);
    let class = listing::class_at(degree, rank).map_err(Refusal::number);
    (shape == Err(number)) & (class == Err(number))
}

impl Ranks {
    pub fn of_degree(&mut self, degree: Degree) {
        for rank in 0..degree.count {
            let of_shape = listing::shape_at(degree.n, rank).and_then(listing::shape_rank);
            let of_class = listing::class_at(degree.n, rank).and_then(listing::class_rank);
            self.shapes = self.shapes.add(of_shape == Ok(i64::from(rank)));
            self.classes = self.classes.add(of_class == Ok(i64::from(rank)));
        }
        for rank in [degree.count, 0xFFFF_FFFF] {
            self.past = self.past.add(refused(degree.n, rank, 11));
        }
    }

    pub fn print_all(&self, rt: &impl Print) -> io::Result<()> {
        print(rt, b"shape at a rank and back", self.shapes)?;
        print(rt, b"class at a rank and back", self.classes)?;
        print(rt, b"rank past the last, 11", self.past)
    }
}

// Degrees above 16, with a rank and with none that is in a list.
pub fn above() -> Tally {
    let mut t = Tally::new();
    for (degree, rank) in [(17, 0), (17, 0xFFFF_FFFF), (0xFFFF_FFFF, 0)] {
        t = t.add(refused(degree, rank, 12));
    }
    t
}
