//! That threads may share plans.

use crate::operation::Plan;

fn may_be_shared<T: Sync>(_value: &T) {}

/// Threads may share a plan.
pub fn plan_may_be_shared(plan: &Plan) {
    may_be_shared(plan);
}
