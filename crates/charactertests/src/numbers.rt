// Signed numbers of a tested size, and their products.
ghost use Rattle.std.specs.Prelude.{◌≤◌, nat_abs};

// A number of size at most 2,000,000, and 0 for one of a larger size.
pub fn small(number: i64) -> i64
    ensures { nat_abs result ≤ 2000000 }
{
    if (-2_000_000..=2_000_000).contains(&number) {
        number
    } else {
        0
    }
}

pub fn product(x: i64, y: i64) -> i64
    requires { (nat_abs x ≤ 2000000) × (nat_abs y ≤ 2000000) }
    ensures { nat_abs result ≤ 4000000000000 }
{
    x * y
}
