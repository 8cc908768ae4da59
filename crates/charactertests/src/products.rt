// Column orthogonality, formula (2b) of document 000: the products of two classes' entries sum to n!/h for a class of
// size h with itself, and to 0 for two classes.
use super::lists::Degree;
use super::numbers::{product, small};
use testing::Tally;
use testing::numbers::{natural, sum};

// Columns of a degree, each with room for the entries of the greatest degree.
type Table = [[i64; listing::MOST_PARTITIONS]; listing::MOST_PARTITIONS];

// The columns of all classes of a degree; zeros from a rank on that is refused.
fn columns(degree: Degree) -> Table {
    let mut table = [[0i64; listing::MOST_PARTITIONS]; listing::MOST_PARTITIONS];
    for (rank, column) in (0..degree.count).zip(&mut table) {
        let Ok(class) = listing::class_at(degree.n, rank) else {
            break;
        };
        let _ = classcolumns::column(class, column);
    }
    table
}

fn sum_of_products(x: &[i64], y: &[i64]) -> i64 {
    x.iter().zip(y).fold(
        0,
        |so_far, (x, y)| sum(so_far, product(small(*x), small(*y))),
    )
}

// Whether a sum is the factorial by the size of a class.
fn is_quotient(sum: i64, factorial: u64, size: u64) -> bool {
    if size == 0 {
        return false;
    }
    (factorial % size == 0) & (natural(sum) == factorial / size)
}

// Each class with those up to it.
pub fn of_degree(found: Tally, degree: Degree, factorial: u64) -> Tally {
    let table = columns(degree);
    let columns = &table[..];
    let mut t = found;
    for rank in 0..degree.count {
        let class = listing::class_at(degree.n, rank);
        let size = natural(words::classes::size(class.unwrap_or(0)).unwrap_or(0));
        let at = rank as usize;
        let column = degree.entries(&columns[at]);
        for other in &columns[..at] {
            t = t.add(sum_of_products(column, degree.entries(other)) == 0);
        }
        t = t.add(is_quotient(sum_of_products(column, column), factorial, size));
    }
    t
}
