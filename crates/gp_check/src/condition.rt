//! Conditions with places in place of names.

ghost use Rattle.std.specs.Prelude.{◌≡◌, IfOk};
ghost use Rattle.gp_syntax.specs.Tree.{condition_of, condition_or_true, pattern_of};
ghost use Rattle.gp_clauses.specs.ConditionShapes.{named_condition, condition_in};
ghost use Rattle.gp_check.specs.inside.Placed.{placed_condition_in, IsTest};

use crate::chains::with_part;
use crate::expression::placed;
use crate::pattern::edge_pattern;
use crate::places::Places;
use gp_clauses::{ConditionShape, condition_shape_of};
use gp_memory::NoMemory;
use gp_syntax::{Boxed, Cond, MarkPattern, Name};
use gp_values::EdgeMark;
use std::alloc::Global;

// A condition that is neither a `not` nor a chain, with places in place of names.
fn placed_test(
    alloc: Global,
    places: Places<'_>,
    test: ConditionShape<'_>,
) -> Result<Cond<u32, MarkPattern<EdgeMark>>, NoMemory>
    requires { IsTest test }
    ensures { IfOk result (λ r. condition_of pattern_of r ≡ placed_condition_in places.entry (condition_in test.entry)) }
{
    match test {
        ConditionShape::HasType(wanted, e) => {
            let e = placed(alloc, places, e)?;
            Ok(Cond::HasType(wanted, e))
        }
        ConditionShape::HasEdge(source, target) => {
            let source = places.node(source)?;
            let target = places.node(target)?;
            Ok(Cond::HasEdge(source, target))
        }
        ConditionShape::HasEdgeWith(source, target, label, mark) => {
            let source = places.node(source)?;
            let target = places.node(target)?;
            let label = placed(alloc, places, label)?;
            Ok(Cond::HasEdgeWith(source, target, label, edge_pattern(mark)))
        }
        ConditionShape::Compared(comparison, d, e) => {
            let d = placed(alloc, places, d)?;
            let e = placed(alloc, places, e)?;
            Ok(Cond::Compared(comparison, d, e))
        }
        _ => unreachable!(),
    }
}

/// A condition with places in place of names.
pub fn placed_condition(
    alloc: Global,
    places: Places<'_>,
    c: &Cond<Name, Option<Name>>,
) -> Result<Cond<u32, MarkPattern<EdgeMark>>, NoMemory>
    ensures { IfOk result (λ r. condition_of pattern_of r ≡ placed_condition_in places.entry (named_condition c.now)) }
{
    let shape = condition_shape_of(c);
    match shape {
        ConditionShape::Not(part) => {
            let part = placed_condition(alloc, places, part)?;
            Ok(Cond::Not(Boxed::new(alloc, part)?))
        }
        ConditionShape::Chain(by, first, rest) => {
            let mut total = placed_condition(alloc, places, first)?;
            'parts: for part in rest {
                let next = placed_condition(alloc, places, part)?;
                total = with_part(alloc, total, by, next)?;
            }
            Ok(total)
        }
        _ => placed_test(alloc, places, shape),
    }
}

/// The condition of a rule, if it has one.
pub fn placed_tests(
    alloc: Global,
    places: Places<'_>,
    condition: &Option<Cond<Name, Option<Name>>>,
) -> Result<Option<Cond<u32, MarkPattern<EdgeMark>>>, NoMemory>
    ensures { IfOk result (λ r. condition_or_true pattern_of r ≡ placed_condition_in places.entry (condition_or_true (λ m. m) condition.now)) }
{
    match condition {
        Some(c) => Ok(Some(placed_condition(alloc, places, c)?)),
        None => Ok(None),
    }
}
