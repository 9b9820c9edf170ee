//! The check of a declaration.

ghost use Rattle.std.specs.Prelude.{◌≡◌, false, IfOk, OnOk};
ghost use Rattle.gp_syntax.specs.Declaration.{rule_of};
ghost use Rattle.gp_syntax.specs.Tree.{declaration_of, rule_of_tree};
ghost use Rattle.gp_syntax.specs.Fault.{fault_of, not_simple};
ghost use Rattle.gp_clauses.specs.Scope.{IsScope};
ghost use Rattle.gp_check.specs.Answer.{Checks};
ghost use Rattle.gp_check.specs.inside.Stages.{names_checked, labels_checked, marks_checked};

use crate::build::parts;
use crate::fault::RuleFault;
use gp_clauses::{
    Scope, bad_bidi, bad_interface, bad_mark, bad_type, not_simple, too_large, twice_declared,
    unbound, unknown_node,
};
use gp_syntax::{Rule, RuleDecl};
use std::alloc::Global;

/// The rule of a declaration, or the first static clause that it breaks.
pub fn check_rule(alloc: Global, rule: &RuleDecl) -> Result<Rule, RuleFault>
    ensures rule { IfOk result (λ r. rule_of_tree r ≡ rule_of (declaration_of rule.now)) }
    ensures name { IfOk result (λ r. r.name ≡ rule.now.name) }
    ensures fault { Checks result (fault_of (declaration_of rule.now)) }
{
    let scope = checked_scope(alloc, rule)?;
    let parts = parts(alloc, rule, scope)?;
    Ok(Rule::new(parts))
}

// The variables of a declaration that breaks no clause, or the first clause that it breaks.
fn checked_scope(alloc: Global, rule: &RuleDecl) -> Result<Scope, RuleFault>
    ensures scope { IfOk result (λ s. IsScope (declaration_of rule.now) s) }
    ensures simple { OnOk result (not_simple (declaration_of rule.now) ≡ false) }
    ensures fault { Checks result (fault_of (declaration_of rule.now)) }
{
    check_names(alloc, rule)?;
    let scope = Scope::new(alloc, rule)?;
    check_labels(alloc, rule, &scope)?;
    check_marks(alloc, rule)?;
    Ok(scope)
}

// The clauses on sizes and names.
fn check_names(alloc: Global, rule: &RuleDecl) -> Result<(), RuleFault>
    ensures { Checks result (names_checked (declaration_of rule.now)) }
{
    if too_large(rule) {
        return Err(RuleFault::TooLarge);
    }
    if let Some(name) = twice_declared(alloc, rule)? {
        return Err(RuleFault::TwiceDeclared(name.copy(alloc)?));
    }
    if let Some(name) = unknown_node(rule) {
        return Err(RuleFault::UnknownNode(name.copy(alloc)?));
    }
    if let Some(name) = bad_interface(rule) {
        return Err(RuleFault::BadInterface(name.copy(alloc)?));
    }
    Ok(())
}

// The clauses on variables, types and left labels.
fn check_labels(alloc: Global, rule: &RuleDecl, scope: &Scope) -> Result<(), RuleFault>
    requires { IsScope (declaration_of rule.now) scope.now }
    ensures { Checks result (labels_checked (declaration_of rule.now)) }
{
    if let Some(name) = unbound(rule, scope) {
        return Err(RuleFault::Unbound(name.copy(alloc)?));
    }
    if bad_type(rule, scope) {
        return Err(RuleFault::BadType);
    }
    if not_simple(rule, scope) {
        return Err(RuleFault::NotSimple);
    }
    Ok(())
}

// The clauses on marks and directions.
fn check_marks(alloc: Global, rule: &RuleDecl) -> Result<(), RuleFault>
    ensures { Checks result (marks_checked (declaration_of rule.now)) }
{
    if bad_mark(rule) {
        return Err(RuleFault::BadMark);
    }
    if let Some(name) = bad_bidi(rule) {
        return Err(RuleFault::BadBidi(name.copy(alloc)?));
    }
    Ok(())
}
