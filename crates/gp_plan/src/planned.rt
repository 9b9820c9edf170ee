//! Rules with their plans, and sets of them.

ghost use Rattle.std.specs.Prelude.{◌≡◌, ◌<◌, All, length, map, Some, slice_get};
ghost use Rattle.gp_syntax.specs.Tree.{rule_of_tree};
ghost use Rattle.gp_plan.specs.Plan.{plan_of};

use crate::operation::Plan;
use gp_syntax::Rule;
use std::marker::Model;

/// Rules with their plans, which are those that `gp_plan::plan` makes. Contracts see the rules.
#[derive(Drop)]
pub struct Planned<'a> {
    rules: &'a [Rule],
    plans: &'a [Plan],
}

impl<'a> Model for Planned<'a> {
    ghost use Rattle.std.specs.Prelude.{◌≡◌, List, map};
    ghost use Rattle.std.specs.Coded.{coded_list};
    ghost use Rattle.gp_syntax.specs.declared.rule.RuleParts.{RuleParts};
    ghost use Rattle.gp_syntax.specs.contracts.rule.RuleParts.{the_row as rule_row};
    ghost use Rattle.gp_syntax.specs.Tree.{rule_of_tree};
    ghost use Rattle.gp_plan.specs.Plan.{plan_of};

    ghost Value = { List RuleParts };

    ghost coded = { coded_list rule_row.coded };

    ghost view = { λ a. a.rules.now };

    ghost invariant = { λ a. a.plans.now ≡ map plan_of (map rule_of_tree a.rules.now) };
}

impl<'a> Planned<'a> {
    /// These rules, with the plans of each.
    pub fn new(rules: &'a [Rule], plans: &'a [Plan]) -> Planned<'a>
        requires { plans.now ≡ map plan_of (map rule_of_tree rules.now) }
        ensures { result ≡ rules.now }
    {
        Planned { rules, plans }
    }

    /// The rules.
    pub fn rules(&self) -> &'a [Rule]
        ensures { result.now ≡ self.now }
    {
        self.rules
    }

    /// Their plans.
    pub fn plans(&self) -> &'a [Plan]
        ensures { result.now ≡ map plan_of (map rule_of_tree self.now) }
    {
        self.plans
    }

    /// The rule of this number, and its plan.
    pub fn at(&self, number: u32) -> (&'a Rule, &'a Plan)
        requires { number < length self.now }
        ensures rule { slice_get (map rule_of_tree self.now) number ≡ Some (rule_of_tree result.0.now) }
        ensures plan { result.1.now ≡ plan_of (rule_of_tree result.0.now) }
    {
        (&self.rules[number as usize], &self.plans[number as usize])
    }
}

/// Planned rules, and a set of numbers of these. Contracts see the rules and the set.
#[derive(Drop)]
pub struct RuleSet<'a> {
    planned: Planned<'a>,
    set: &'a [u32],
}

impl<'a> Model for RuleSet<'a> {
    ghost use Rattle.std.specs.Prelude.{◌<◌, All, length};
    ghost use Rattle.gp_plan.specs.Rules.{RuleSet, rule_set_code};

    ghost Value = { RuleSet };

    ghost coded = { rule_set_code };

    ghost view = { λ a. record { rules = a.planned; set = a.set.now } };

    ghost invariant = { λ a. All (λ k. k < length a.planned) a.set.now };
}

impl<'a> RuleSet<'a> {
    /// Those of the rules that have these numbers.
    pub fn new(planned: &Planned<'a>, set: &'a [u32]) -> RuleSet<'a>
        requires { All (λ k. k < length planned.now) set.now }
        ensures { result ≡ record { rules = planned.now; set = set.now } }
    {
        let planned = Planned::new(planned.rules, planned.plans);
        RuleSet { planned, set }
    }

    /// The plans of all the rules.
    pub fn plans(&self) -> &'a [Plan]
        ensures { result.now ≡ map plan_of (map rule_of_tree self.now.rules) }
    {
        self.planned.plans()
    }

    /// The rule of this number, and its plan.
    pub fn at(&self, number: u32) -> (&'a Rule, &'a Plan)
        requires { number < length self.now.rules }
        ensures rule { slice_get (map rule_of_tree self.now.rules) number ≡ Some (rule_of_tree result.0.now) }
        ensures plan { result.1.now ≡ plan_of (rule_of_tree result.0.now) }
    {
        self.planned.at(number)
    }

    /// The numbers.
    pub fn numbers(&self) -> &'a [u32]
        ensures set { result.now ≡ self.now.set }
        ensures within { All (λ k. k < length self.now.rules) result.now }
    {
        self.set
    }
}
