// A walk over the degrees 0 to 16, with every check on each.
use super::columns::Columns;
use super::degrees::Degrees;
use super::lists::Degree;
use super::ranks::Ranks;
use super::{products, singles};
use testing::Tally;
use testing::numbers::factorial;

// What each check found.
#[derive(Clone, Copy, Default)]
pub struct Found {
    pub columns: Columns,
    pub products: Tally,
    pub degrees: Degrees,
    pub singles: Tally,
    pub ranks: Ranks,
}

// Single characters are evaluated one by one: above this degree that takes more than a second.
const SINGLES: u8 = 14;

impl Found {
    fn meet(&mut self, n: u8) {
        let degree = Degree::new(n);
        self.columns.of_degree(degree);
        self.products = products::of_degree(self.products, degree, factorial(n));
        self.degrees.of_degree(degree);
        self.ranks.of_degree(degree);
        if n <= SINGLES {
            self.singles = singles::of_degree(self.singles, degree);
        }
    }
}

pub fn all() -> Found {
    let mut found = Found::default();
    for n in 0..=16 {
        found.meet(n);
    }
    found
}
