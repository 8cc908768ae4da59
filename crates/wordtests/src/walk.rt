// A walk over all partitions of degree 0 to 16, with every check on each.
use super::class_data::{period_agrees, sign_agrees};
use super::columns::{Kind, fit, there_and_back};
use super::partitions::Partition;
use super::{class_data, conjugates, in_front, old_lists};
use std::{io, iter};
use testing::Tally;
use testing::numbers::factorial;

// What each check found, and of the degree that is being walked the number of partitions met, the class word of the
// last one and the sum of the sizes of the classes.
#[derive(Clone, Copy, Default)]
pub struct Found {
    pub shapes: Tally,
    pub classes: Tally,
    pub rises: Tally,
    pub listed: Tally,
    pub columns: Tally,
    pub forms: Tally,
    pub in_front: Tally,
    pub conjugates: Tally,
    pub signs: Tally,
    pub periods: Tally,
    pub sizes: Tally,
    number: u64,
    last: u32,
    sum: u64,
}

// Whether the listing has a class at the place at which the walk meets it.
fn is_listed(n: u8, number: u64, class: u32) -> bool {
    listing::class_at(u32::from(n), (number % 0x1_0000_0000) as u32) == Ok(class)
}

impl Found {
    // The checks on the two words of a partition of n.
    fn meet_words(&mut self, shape: u32, class: u32, parts: &[u8], n: u8) {
        let columns = fit(Kind::Shape, shape, parts) & fit(Kind::Class, class, parts);
        self.columns = self.columns.add(columns);
        self.forms = self.forms.add(old_lists::agrees(shape, class));
        self.in_front = in_front::meet(self.in_front, shape, parts, n);
        self.conjugates = self.conjugates.add(conjugates::agrees(shape, parts));
        self.listed = self.listed.add(is_listed(n, self.number, class));
    }

    // The checks on what its class tells.
    fn meet_class(&mut self, class: u32, parts: &[u8]) {
        self.signs = self.signs.add(sign_agrees(class, parts));
        self.periods = self.periods.add(period_agrees(class, parts));
        self.rises = self.rises.add((self.number == 0) | (self.last < class));
        self.number = self.number.wrapping_add(1);
        self.last = class;
        self.sum = self.sum.wrapping_add(class_data::size(class));
    }

    // The checks on a partition of n.
    fn meet(&mut self, parts: &[u8], n: u8) {
        let shape = words::shapes::word(parts);
        let class = words::classes::word(parts);
        self.shapes = self
            .shapes
            .add(there_and_back(Kind::Shape, shape, parts, n));
        self.classes = self
            .classes
            .add(there_and_back(Kind::Class, class, parts, n));
        let class = class.unwrap_or(0);
        self.meet_words(shape.unwrap_or(0), class, parts, n);
        self.meet_class(class, parts);
    }

    // All partitions of n: their number on standard output, and whether the sizes of their classes sum to n!. A walk
    // that did not end would stop after 300.
    fn meet_degree(&mut self, rt: &impl Print, n: u8) -> io::Result<()> {
        self.number = 0;
        self.sum = 0;
        for partition in iter::successors(Some(Partition::first(n)), Partition::next).take(300) {
            self.meet(partition.parts(), n);
        }
        let number = self.number;
        print!(rt; " {number}")?;
        self.sizes = self.sizes.add(self.sum == factorial(n));
        Ok(())
    }
}

pub fn all(rt: &impl Print) -> io::Result<Found> {
    print!(rt; "partitions of degree 0 to 16:")?;
    let mut found = Found::default();
    for n in 0..=16 {
        found.meet_degree(rt, n)?;
    }
    println!(rt)?;
    Ok(found)
}
