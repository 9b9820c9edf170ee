//! One layer of a condition: a test, a `not`, or a chain of `and` or of `or`.

ghost use Rattle.std.specs.Prelude.{◌≡◌};
ghost use Rattle.gp_syntax.specs.Tree.{condition_of};
ghost use Rattle.gp_clauses.specs.ConditionShapes.{condition_in, IsSmallerCondition};
ghost use Rattle.gp_clauses.specs.Size.{condition_size};

use gp_syntax::{Comparison, Cond, Expr, Name, VariableType};

/// What joins the parts of a chain.
#[derive(Clone, Copy)]
pub enum Connective {
    And,
    Or,
}

/// One layer of a condition.
#[derive(Clone, Copy)]
pub enum ConditionShape<'a> {
    HasType(VariableType, &'a Expr<Name>),
    HasEdge(&'a Name, &'a Name),
    HasEdgeWith(&'a Name, &'a Name, &'a Expr<Name>, &'a Option<Name>),
    Compared(Comparison, &'a Expr<Name>, &'a Expr<Name>),
    Not(&'a Cond<Name, Option<Name>>),
    Chain(Connective, &'a Cond<Name, Option<Name>>, &'a [Cond<Name, Option<Name>>]),
}

/// The first layer of a condition.
pub fn condition_shape_of(c: &Cond<Name, Option<Name>>) -> ConditionShape<'_>
    ensures whole { condition_of (λ m. m) c.now ≡ condition_in result }
    ensures smaller { IsSmallerCondition result (condition_size c.now) }
{
    match c {
        Cond::HasType(wanted, e) => ConditionShape::HasType(*wanted, e),
        Cond::HasEdge(source, target) => ConditionShape::HasEdge(source, target),
        Cond::HasEdgeWith(source, target, label, mark) => {
            ConditionShape::HasEdgeWith(source, target, label, mark)
        }
        Cond::Compared(comparison, d, e) => ConditionShape::Compared(*comparison, d, e),
        Cond::Not(part) => ConditionShape::Not(part.get()),
        Cond::And(first, rest) => {
            ConditionShape::Chain(Connective::And, first.get(), rest.as_slice())
        }
        Cond::Or(first, rest) => {
            ConditionShape::Chain(Connective::Or, first.get(), rest.as_slice())
        }
    }
}
