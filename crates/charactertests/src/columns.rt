// Each column on its own: how many entries it has, the first, the last and their sizes; and one too short is refused.
use super::lists::Degree;
use std::io;
use testing::{Tally, print};
use words::Refusal;

#[derive(Clone, Copy, Default)]
pub struct Columns {
    counts: Tally,
    firsts: Tally,
    lasts: Tally,
    sizes: Tally,
    short: Tally,
}

// What fills a column before a call: larger than any character.
const MARK: i64 = 2_000_001;

fn marked(values: &[i64]) -> bool {
    values.iter().all(|number| *number == MARK)
}

// Whether a class is refused by a column with one entry too few, which stays.
fn short_stays(class: u32, degree: Degree) -> bool {
    let mut values = [MARK; listing::MOST_PARTITIONS];
    let room = degree.count as usize - 1;
    let short = &mut values[..room];
    let column = classcolumns::column(class, short);
    (column.map_err(Refusal::number) == Err(14)) & marked(short)
}

impl Columns {
    // The checks on the entries of a class's column.
    fn meet_entries(&mut self, class: u32, entries: &[i64]) {
        let sign = words::classes::sign(class);
        let sizes = entries
            .iter()
            .all(|number| (-2_000_000..=2_000_000).contains(number));
        self.firsts = self.firsts.add(entries.first() == Some(&1));
        self.lasts = self.lasts.add(sign.ok().as_ref() == entries.last());
        self.sizes = self.sizes.add(sizes);
    }

    // The checks on the column of a class.
    fn meet(&mut self, class: u32, degree: Degree) {
        let mut values = [MARK; listing::MOST_PARTITIONS];
        let count = degree.count as usize;
        let column = classcolumns::column(class, &mut values);
        let (entries, rest) = values.split_at(count);
        self.meet_entries(class, entries);
        self.counts = self.counts.add((column == Ok(count)) & marked(rest));
        self.short = self.short.add(short_stays(class, degree));
    }

    pub fn of_degree(&mut self, degree: Degree) {
        for rank in 0..degree.count {
            let class = listing::class_at(degree.n, rank);
            self.meet(class.unwrap_or(0), degree);
        }
    }

    pub fn print_all(&self, rt: &impl Print) -> io::Result<()> {
        print(rt, b"column has an entry for each partition", self.counts)?;
        print(rt, b"first entry is 1, formula (4)", self.firsts)?;
        print(rt, b"last entry is the sign, formula (5)", self.lasts)?;
        print(rt, b"entries of size at most 2000000", self.sizes)?;
        print(rt, b"column one too short stays, 14", self.short)
    }
}
