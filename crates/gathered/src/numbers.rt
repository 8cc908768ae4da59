// Products of numbers that have room.
ghost use Rattle.std.specs.Prelude.{◌≡◌, ◌*◌, ◌<◌, ◌^◌, ◌*ℤ◌, nat_abs};

pub fn times(x: i64, y: i64) -> i64
    requires { nat_abs x * nat_abs y < 2 ^ 63 }
    ensures { result ≡ x *ℤ y }
{
    x * y
}
