//! A chooser whose answers are known.

ghost use Rattle.std.specs.Prelude.{ℕ, ◌%◌, ◌/◌, nat_eq};

use gp_run::Chooser;

/// Answers by the bits of a number, the lowest first.
#[derive(Drop)]
pub(crate) struct Bits(pub(crate) u64);

impl Chooser for Bits {
    type State = u64;

    ghost state = { λ s. s.0 };

    ghost answer = { λ (n : ℕ). nat_eq (n % 2) 1 };

    ghost next = { λ (n : ℕ). n / 2 };

    fn pick(&mut self) -> bool {
        let answer = self.0 % 2 == 1;
        self.0 /= 2;
        answer
    }
}
