// A kind of 129 tests, one more than can be turned: every byte meets them all.
ghost use Rattle.std.specs.Prelude.{true, not, nat_lt};
ghost use Rattle.std.proofs.Math.Bool.{Bool-set};
ghost use Rattle.std.proofs.Math.Logic.{∥∥₁_elim};
ghost use Rattle.std.proofs.Common.{ap, arith, rules};
ghost use Rattle.std.proofs.lemmas.Bool.Decides.{nat_tests};

use symbols::Kind;

// How many tests there are.
const TESTS: u8 = 129;

// The kind, with a mark to know it by.
#[derive(Clone, Copy)]
pub struct Plain {
    pub mark: u8,
}

// The tests 0 to 128, met by every byte.
impl Kind for Plain {
    type Symbol = u8;

    ghost count = { λ k. 129 };

    ghost meets = { λ k t s. nat_lt t 129 };

    ghost can_meet = { λ k t. nat_lt t 129 };

    ghost can_fail = { λ k t. not (nat_lt t 129) };

    ghost bounds = { Prim.search rules };

    ghost past = { Prim.search rules };

    ghost every = { Prim.search rules };

    ghost inhabited = { λ k. ∣ 0 ∣₁ };

    ghost meetable = { λ k t. (λ e. ∣ (0, e) ∣₁, λ h. ∥∥₁_elim h (Bool-set (nat_lt t 129) true) (λ x. x.1)) };

    ghost failable = { λ k t. (
      λ e. ∣ (0, Prim.grind (arith, nat_tests, e)) ∣₁,
      λ h. ∥∥₁_elim h (Bool-set (not (nat_lt t 129)) true) (λ x. ap not x.1),
    ) };

    fn tests(&self) -> usize {
        TESTS as usize
    }

    fn test(&self, t: u8, _s: &u8) -> bool {
        t < TESTS
    }

    fn possible(&self, t: u8) -> bool {
        t < TESTS
    }

    fn avoidable(&self, t: u8) -> bool {
        t >= TESTS
    }
}
