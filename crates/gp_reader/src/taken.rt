//! The declarations of rules, taken out of the tree of a program text.

ghost use Rattle.std.specs.Prelude.{◌≡◌, ◌++◌, reverse, IfOk, OnOk};
ghost use Rattle.gp_scope.specs.Outline.{outline, rules_in};
ghost use Rattle.gp_reader.specs.inside.Taken.{TakesRules};

use gp_memory::NoMemory;
use gp_syntax::{Decl, Items, RuleDecl};
use std::alloc::Global;

/// The declarations of the rules, in text order.
pub(crate) fn take_rules(
    alloc: Global,
    declarations: Items<Decl>,
) -> Result<Items<RuleDecl>, NoMemory>
    ensures { IfOk result (λ rs. rs ≡ rules_in (outline declarations)) }
{
    let mut last_first = Items::new(alloc);
    take_each(declarations, &mut last_first)?;
    turned(alloc, last_first)
}

// Puts them behind others, the last one first.
#[cycle(taken)]
fn take_each(declarations: Items<Decl>, taken: &mut Items<RuleDecl>) -> Result<(), NoMemory>
    ensures { OnOk result (reverse taken.new ≡ rules_in (outline declarations) ++ reverse taken.old) }
{
    let mut left = declarations;
    'each: while let Some(declaration) = left.pop() {
        take_own(declaration, taken)?;
    }
    Ok(())
}

#[cycle(taken)]
fn take_own(declaration: Decl, taken: &mut Items<RuleDecl>) -> Result<(), NoMemory>
    ensures { OnOk result (TakesRules declaration taken.old taken.new) }
{
    match declaration {
        Decl::Rule(rule) => Ok(taken.push(rule)?),
        Decl::Procedure { declarations, .. } => take_each(declarations, taken),
    }
}

// The same rules, the first one last.
fn turned(alloc: Global, rules: Items<RuleDecl>) -> Result<Items<RuleDecl>, NoMemory>
    ensures { IfOk result (λ rs. rs ≡ reverse rules) }
{
    let mut left = rules;
    let mut turned = Items::new(alloc);
    'each: while let Some(rule) = left.pop() {
        turned.push(rule)?;
    }
    Ok(turned)
}
