//! What the contracts say of a commit and a join, worked out at one case.

ghost use Rattle.std.specs.Prelude.{◌≡◌, [], ◌∷◌, IfSome, Some};
ghost use Rattle.opt_gate.specs.Pass.{first_pass, pass_after_split, new_pass, start_of};
ghost use Rattle.opt_system.specs.Meaning.{applies};

use opt_core::Reply;
use opt_gate::{Ask, Gate, Pass};
use opt_system::System;
use std::sync::Wait;

// Of the two passes of a new gate, the first commits a match and then takes in the second one. It knows one entry
// then, and has one commit of its own: the match, at place 0.
pub fn commit_and_join<S: System, R: Wait>(
    rt: &R,
    s: &S,
    gate: &Gate<S>,
    mut p: Pass<S>,
    q: Pass<S>,
    found: S::Found,
) -> Option<Pass<S>>
    requires passes { (gate.now.key.passes ≡ 2) × (p ≡ pass_after_split (first_pass gate.now 2)) × (q ≡ new_pass (first_pass gate.now 2) 1) }
    requires system { s.now ≡ (start_of gate.now).system }
    requires applies { (S.means s.now).judged (start_of gate.now).goal (start_of gate.now).base found ≡ applies }
    ensures { IfSome result (λ r. (r.knows ≡ found ∷ []) × (r.own ≡ (0, found) ∷ []) × (r.table ≡ gate.now.table) × (r.key ≡ Some gate.now.key)) }
{
    let reply = gate.turn(rt, &mut p, s, Ask::Offer { found });
    let Reply::Committed(_) = reply else {
        return None;
    };
    p.join(gate, q);
    Some(p)
}
