// The words of a page.
ghost use Rattle.std.proofs.Common.{rules};
ghost use Rattle.theory.specs.Basics.{◌=?◌};

use super::Zero;

impl Zero for u64 {
    ghost ZERO = { 0 };

    const ZERO: u64 = 0;

    ghost is_zero = { ◌=? 0 };

    ghost only = { Prim.search rules };

    ghost copied = { λ n. tt };

    ghost same = { λ n m e. e };

    fn is_zero(self) -> bool {
        self == 0
    }
}
