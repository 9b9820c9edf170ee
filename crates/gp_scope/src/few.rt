//! Whether there are so few declarations that they can be numbered.

ghost use Rattle.std.specs.Prelude.{◌≡◌, ◌+◌, IfSome};
ghost use Rattle.gp_scope.specs.Outline.{Outline, declared, outline};
ghost use Rattle.gp_scope.specs.Surveys.{declarations_in};

use gp_syntax::Decl;

/// How many declarations there are, at any place; none where a `u32` cannot say it.
#[cycle(few)]
pub(crate) fn declaration_count(declarations: &[Decl]) -> Option<u32>
    ensures { IfSome result (λ n. n ≡ declarations_in (outline declarations.now)) }
{
    let mut all: u32 = 0;
    'each: for declaration in declarations {
        all = all.checked_add(count_within(declaration)?)?;
    }
    Some(all)
}

// The declaration, with those in it.
#[cycle(few)]
fn count_within(declaration: &Decl) -> Option<u32>
    ensures { IfSome result (λ n. (os : Outline) → declarations_in (declared declaration.now os) ≡ n + declarations_in os) }
{
    match declaration {
        Decl::Rule(_) => Some(1),
        Decl::Procedure { declarations, .. } => {
            let local = declaration_count(declarations.as_slice())?;
            local.checked_add(1)
        }
    }
}
