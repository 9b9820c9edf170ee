//! The rules of a program text.

ghost use Rattle.std.specs.Prelude.{◌≡◌, map};
ghost use Rattle.gp_syntax.specs.Tree.{declaration_of};
ghost use Rattle.gp_reader.specs.inside.Stages.{ChecksOne, ChecksRules, rule_fault};

use crate::fault::ProgramFault;
use gp_check::{RuleFault, check_rule};
use gp_syntax::{Items, Name, Rule, RuleDecl};
use std::alloc::Global;

/// The rules of these declarations, or the fault of the first that has one.
pub(crate) fn checked_rules(alloc: Global, rules: &[RuleDecl]) -> Result<Items<Rule>, ProgramFault>
    ensures { ChecksRules (map declaration_of rules.now) result }
{
    let mut checked = Items::new(alloc);
    'rules: for rule in rules {
        check_one(alloc, rule, &mut checked)?;
    }
    Ok(checked)
}

// Puts the rule of a declaration behind those before it.
fn check_one(alloc: Global, rule: &RuleDecl, checked: &mut Items<Rule>) -> Result<(), ProgramFault>
    ensures { ChecksOne (declaration_of rule.now) checked.old checked.new result }
{
    match check_rule(alloc, rule) {
        Ok(rule) => Ok(checked.push(rule)?),
        Err(fault) => Err(rule_fault(rule.name.copy(alloc)?, fault)),
    }
}

// The fault of a program by that of a rule of this name.
fn rule_fault(name: Name, fault: RuleFault) -> ProgramFault
    ensures { result ≡ rule_fault name fault }
{
    match fault {
        RuleFault::NoMemory => ProgramFault::NoMemory,
        other => ProgramFault::Rule { name, fault: other },
    }
}
