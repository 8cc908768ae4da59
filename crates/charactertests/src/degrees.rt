// Character degrees: each is an entry of the column of (1^n), whose largest entry is in document 004.
use super::lists::{self, Degree};
use super::singles::tells;
use std::io;
use testing::{Tally, print};

#[derive(Clone, Copy, Default)]
pub struct Degrees {
    largest: Tally,
    all: Tally,
}

impl Degrees {
    // The class (1^n) is the last.
    pub fn of_degree(&mut self, degree: Degree) {
        let class = listing::class_at(degree.n, degree.count - 1);
        let mut values = [0i64; listing::MOST_PARTITIONS];
        let _ = classcolumns::column(class.unwrap_or(0), &mut values);
        let entries = degree.entries(&values);
        for (rank, number) in (0..degree.count).zip(entries) {
            let told = tells(degree, rank, characters::character_degree, *number);
            self.all = self.all.add(told);
        }
        if degree.n != 0 {
            let largest = entries.iter().max() == Some(&lists::largest(degree.n));
            self.largest = self.largest.add(largest);
        }
    }

    pub fn print_all(&self, rt: &impl Print) -> io::Result<()> {
        print(rt, b"largest character degree, document 004", self.largest)?;
        print(rt, b"character degrees are entries of (1^n)", self.all)
    }
}
