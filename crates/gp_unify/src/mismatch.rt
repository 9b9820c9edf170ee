//! Why a label has not a value.

use gp_memory::NoMemory;

/// The label and the value differ, or memory was refused.
#[derive(Clone, Copy)]
pub(crate) enum Mismatch {
    Differs,
    NoMemory,
}

impl From<NoMemory> for Mismatch {
    ghost use Rattle.std.specs.Prelude.{◌≡◌};
    ghost use Rattle.gp_unify.specs.declared.mismatch.Mismatch.TheVariants as mismatch;

    ghost from_gives = { λ _ e. e ≡ mismatch.NoMemory };

    fn from(_: NoMemory) -> Mismatch {
        Mismatch::NoMemory
    }
}
