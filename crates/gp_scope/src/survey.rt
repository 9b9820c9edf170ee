//! How much is declared.

ghost use Rattle.std.specs.Prelude.{◌||◌, ◌≡◌, ◌+◌, ◌<◌, ◌^◌, length};
ghost use Rattle.gp_scope.specs.Outline.{Outline, declared, outline, is_main};
ghost use Rattle.gp_scope.specs.Fault.{declares_main};
ghost use Rattle.gp_scope.specs.Surveys.{survey_of, declarations_in, both_counted, one_more_counted};

use gp_syntax::{Decl, Name};

/// How many rules, procedures beside Main, and Mains are declared among some declarations, at any place.
#[derive(Clone, Copy)]
pub(crate) struct Survey {
    pub(crate) rules: u32,
    pub(crate) procedures: u32,
    pub(crate) mains: u32,
}

/// Whether the name is Main's.
pub(crate) fn is_main(name: &Name) -> bool
    ensures { result ≡ is_main name.now }
{
    name.as_bytes() == b"Main".as_slice()
}

impl Survey {
    // What both count together.
    pub(crate) fn plus(self, other: Survey) -> Survey
        requires rules { self.rules + other.rules < 2 ^ 32 }
        requires procedures { self.procedures + other.procedures < 2 ^ 32 }
        requires mains { self.mains + other.mains < 2 ^ 32 }
        ensures { result ≡ both_counted self other }
    {
        Survey {
            rules: self.rules + other.rules,
            procedures: self.procedures + other.procedures,
            mains: self.mains + other.mains,
        }
    }

    // One more procedure, or one more Main.
    pub(crate) fn with_procedure(self, name: &Name) -> Survey
        requires procedures { self.procedures + 1 < 2 ^ 32 }
        requires mains { self.mains + 1 < 2 ^ 32 }
        ensures { result ≡ one_more_counted self name.now }
    {
        if is_main(name) {
            Survey {
                mains: self.mains + 1,
                ..self
            }
        } else {
            Survey {
                procedures: self.procedures + 1,
                ..self
            }
        }
    }
}

/// Counts declarations.
#[cycle(count)]
pub(crate) fn count_declared(declarations: &[Decl]) -> Survey
    requires { declarations_in (outline declarations.now) < 2 ^ 32 }
    ensures { result ≡ survey_of (outline declarations.now) }
{
    let mut all = Survey {
        rules: 0,
        procedures: 0,
        mains: 0,
    };
    'each: for declaration in declarations {
        all = all.plus(count_one(declaration));
    }
    all
}

/// Counts a declaration, with those in it.
#[cycle(count)]
pub(crate) fn count_one(declaration: &Decl) -> Survey
    requires { (os : Outline) × (declarations_in (declared declaration.now os) < 2 ^ 32) }
    ensures { (os : Outline) → survey_of (declared declaration.now os) ≡ both_counted result (survey_of os) }
{
    match declaration {
        Decl::Rule(_) => Survey {
            rules: 1,
            procedures: 0,
            mains: 0,
        },
        Decl::Procedure {
            name,
            declarations,
            ..
        } => count_declared(declarations.as_slice()).with_procedure(name),
    }
}

/// Whether Main is declared among them, outside all procedures.
pub(crate) fn has_main(declarations: &[Decl]) -> bool
    ensures { result ≡ declares_main (outline declarations.now) }
{
    'each: for declaration in declarations {
        if is_mains(declaration) {
            return true;
        }
    }
    false
}

// Whether the declaration is Main's.
fn is_mains(declaration: &Decl) -> bool
    ensures { (os : Outline) → declares_main (declared declaration.now os) ≡ (result || declares_main os) }
{
    match declaration {
        Decl::Procedure { name, .. } => is_main(name),
        Decl::Rule(_) => false,
    }
}
