//! Whether a right label or mark is the left one, written again.

ghost use Rattle.std.specs.Prelude.{◌≡◌, true, map};
ghost use Rattle.gp_syntax.specs.Tree.{label_of, expression_of, pattern_of};

use gp_syntax::{Expr, MarkPattern, SimpleLabel};
use gp_values::EdgeMark;

fn is_same_number(left: &i128, right: &i128) -> bool
    ensures { result ≡ true → left.now ≡ right.now }
{
    *left == *right
}

/// Whether a right label is the left one, written again. Labels that are alike in another way may go unseen.
#[cycle(written)]
pub(crate) fn is_written_again(left: &SimpleLabel, right: &Expr<u32>) -> bool
    ensures { result ≡ true → label_of left.now ≡ expression_of right.now }
{
    match (left, right) {
        (SimpleLabel::Number(a), Expr::Number(b)) => is_same_number(a, b),
        (SimpleLabel::Text(a), Expr::Text(b)) => a.same(b),
        (SimpleLabel::Variable(a), Expr::Variable(b)) => a == b,
        (SimpleLabel::Empty, Expr::Empty) => true,
        (SimpleLabel::Dot(a, others), Expr::Dot(b, again)) => {
            is_written_again(a.get(), b.get())
                && are_written_again(others.as_slice(), again.as_slice())
        }
        (SimpleLabel::Join(a, others), Expr::Join(b, again)) => {
            is_written_again(a.get(), b.get())
                && are_written_again(others.as_slice(), again.as_slice())
        }
        _ => false,
    }
}

// The same of the further parts of a chain.
#[cycle(written)]
fn are_written_again(left: &[SimpleLabel], right: &[Expr<u32>]) -> bool
    ensures { result ≡ true → map label_of left.now ≡ map expression_of right.now }
{
    if left.len() != right.len() {
        return false;
    }
    'parts: for (i, part) in left.iter().enumerate() {
        if !is_written_again(part, &right[i]) {
            return false;
        }
    }
    true
}

/// Whether a right mark is that of the left side.
pub(crate) fn is_mark_kept(left: MarkPattern<EdgeMark>, right: MarkPattern<EdgeMark>) -> bool
    ensures { result ≡ true → pattern_of left ≡ pattern_of right }
{
    left == right
}
