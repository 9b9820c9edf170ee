//! Values, or why there is none.

ghost use Rattle.gp_eval.specs.Answer.{Tells};
ghost use Rattle.gp_eval.specs.inside.Chains.{Gives};

use gp_memory::NoMemory;
use gp_syntax::NumberKind;
use std::alloc::AllocError;

/// A value, the kind of the first expression that has none, or want of memory.
#[derive(Drop)]
pub enum Valued<T> {
    Value(T),
    NoValue(NumberKind),
    NoMemory,
}

/// Why there is no value.
#[derive(Clone, Copy)]
pub enum Missing {
    NoValue(NumberKind),
    NoMemory,
}

impl From<NoMemory> for Missing {
    ghost use Rattle.std.specs.Prelude.{◌≡◌};
    ghost use Rattle.gp_eval.specs.declared.valued.Missing.TheVariants as missing;

    ghost from_gives = { λ _ e. e ≡ missing.NoMemory };

    fn from(_: NoMemory) -> Missing {
        Missing::NoMemory
    }
}

impl From<AllocError> for Missing {
    ghost use Rattle.std.specs.Prelude.{◌≡◌};
    ghost use Rattle.gp_eval.specs.declared.valued.Missing.TheVariants as missing;

    ghost from_gives = { λ _ e. e ≡ missing.NoMemory };

    fn from(_: AllocError) -> Missing {
        Missing::NoMemory
    }
}
