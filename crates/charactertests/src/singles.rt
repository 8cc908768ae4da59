// Single characters: each is an entry of its class's column.
use super::lists::Degree;
use testing::Tally;
use words::Refusal;

// Whether a call tells this number of the shape of a rank.
pub fn tells<F: FnOnce(u32) -> Result<i64, Refusal>>(
    degree: Degree,
    rank: u32,
    call: F,
    number: i64,
) -> bool
    requires { F.IsAlwaysCallable call }
{
    let shape = listing::shape_at(degree.n, rank);
    shape.and_then(call) == Ok(number)
}

fn of_class(found: Tally, degree: Degree, class: u32) -> Tally {
    let mut values = [0i64; listing::MOST_PARTITIONS];
    let _ = classcolumns::column(class, &mut values);
    let mut t = found;
    for (rank, number) in (0..degree.count).zip(degree.entries(&values)) {
        let character = |shape| characters::character(shape, class);
        t = t.add(tells(degree, rank, character, *number));
    }
    t
}

pub fn of_degree(found: Tally, degree: Degree) -> Tally {
    let mut t = found;
    for rank in 0..degree.count {
        let class = listing::class_at(degree.n, rank);
        t = of_class(t, degree, class.unwrap_or(0));
    }
    t
}
