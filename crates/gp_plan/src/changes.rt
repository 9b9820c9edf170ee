//! Which left node the right side of a rule writes otherwise.

use gp_syntax::{Expr, LeftNode, RightNode, RuleParts, SimpleLabel};

// Whether an expression is the same numeral, string, variable or `empty` as a label.
fn is_same_part(left: &SimpleLabel, right: &Expr<u32>) -> bool {
    match (left, right) {
        (SimpleLabel::Number(own), Expr::Number(other)) => own == other,
        (SimpleLabel::Text(own), Expr::Text(other)) => own.same(other),
        (SimpleLabel::Variable(own), Expr::Variable(other)) => own == other,
        (SimpleLabel::Empty, Expr::Empty) => true,
        _ => false,
    }
}

// The same of each of several.
fn are_same_parts(left: &[SimpleLabel], right: &[Expr<u32>]) -> bool {
    if left.len() != right.len() {
        return false;
    }
    for i in 0..left.len() {
        if !is_same_part(&left[i], &right[i]) {
            return false;
        }
    }
    true
}

// Whether an expression is written as a label is. What is not seen at a glance is taken for another.
fn is_same_label(left: &SimpleLabel, right: &Expr<u32>) -> bool {
    match (left, right) {
        (SimpleLabel::Dot(first, rest), Expr::Dot(other, others))
        | (SimpleLabel::Join(first, rest), Expr::Join(other, others)) => {
            is_same_part(first.get(), other.get())
                && are_same_parts(rest.as_slice(), others.as_slice())
        }
        _ => is_same_part(left, right),
    }
}

fn is_changed(left: &LeftNode, right: &RightNode) -> bool {
    left.root != right.root || left.mark != right.mark || !is_same_label(&left.label, &right.label)
}

// The left place of a right node that is written otherwise than there.
fn changed_place(parts: &RuleParts, right: &RightNode) -> Option<u32> {
    let place = right.origin?;
    match parts.left_nodes.as_slice().get(place as usize) {
        Some(left) if is_changed(left, right) => Some(place),
        _ => None,
    }
}

/// The last left node in the order of the text whose mark, root or label the right side writes otherwise. One that is
/// removed does not count.
pub(crate) fn last_changed(parts: &RuleParts) -> Option<u32> {
    let mut last = None;
    for right in parts.right_nodes.as_slice() {
        if let Some(place) = changed_place(parts, right) {
            last = Some(place.max(last.unwrap_or(0)));
        }
    }
    last
}
