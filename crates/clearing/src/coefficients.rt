// The coefficients of a column.
ghost use Rattle.std.specs.Prelude.{pos, negsuc, nat_abs};
ghost use Rattle.std.proofs.Common.{ap, eq-eqb, rules};
ghost use Rattle.std.proofs.lemmas.Bool.{eqb-true};
ghost use Rattle.theory.specs.Basics.{◌=?◌};

use super::Zero;

impl Zero for i64 {
    ghost ZERO = { pos 0 };

    const ZERO: i64 = 0;

    ghost is_zero = { λ z. nat_abs z =? 0 };

    ghost only = { elim [
      | pos n ↦ (λ e. ap pos (eqb-true n 0 e), λ e. eq-eqb n 0 (ap nat_abs e))
      | negsuc n ↦ Prim.search rules
    ] };

    ghost copied = { λ z. tt };

    ghost same = { λ z y e. e };

    fn is_zero(self) -> bool {
        self == 0
    }
}
