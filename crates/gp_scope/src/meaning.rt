//! What a name means.

ghost use Rattle.std.specs.Prelude.{◌≡◌, Some};
ghost use Rattle.gp_scope.specs.Names.{rule_of, procedure_of};

/// What a name means where it stands: a rule, or a procedure, by its number.
#[derive(Clone, Copy)]
pub enum Meaning {
    Rule(u32),
    Procedure(u32),
}

impl Meaning {
    /// The number of the rule, where it is one.
    pub(crate) fn rule(self) -> Option<u32>
        ensures { result ≡ rule_of (Some self) }
    {
        match self {
            Meaning::Rule(number) => Some(number),
            Meaning::Procedure(_) => None,
        }
    }

    /// The number of the procedure, where it is one.
    pub(crate) fn procedure(self) -> Option<u32>
        ensures { result ≡ procedure_of (Some self) }
    {
        match self {
            Meaning::Procedure(number) => Some(number),
            Meaning::Rule(_) => None,
        }
    }
}
