//! A trail at a place of the items of a run, with the numbers of items beside it.

ghost use Rattle.std.specs.Prelude.{◌≡◌, ◌≤◌, ◌-◌, ◌++◌, length, take, drop, OnOk, OnErr};

use gp_journal::Trail;
use gp_memory::NoMemory;

/// A trail at a place of the items of a run, with the numbers of the items whose steps are live, in order, and of those
/// whose steps were taken back, the last ones at the end.
pub(crate) struct Standing {
    pub(crate) trail: Trail,
    pub(crate) live: Vec<usize>,
    pub(crate) taken: Vec<usize>,
}

// Written, so that a function that lets one go calls it.
impl Drop for Standing {
    fn drop(self) {
        let Standing { trail, live, taken } = self;
        drop(trail);
        drop(live);
        drop(taken);
    }
}

/// Moves the last numbers behind others, in their order. On refusal both are as before.
pub(crate) fn move_last(
    from: &mut Vec<usize>,
    to: &mut Vec<usize>,
    count: usize,
) -> Result<(), NoMemory>
    requires { count ≤ length from.old.items }
    ensures from { OnOk result (from.new.items ≡ take (length from.old.items - count) from.old.items) }
    ensures to { OnOk result (to.new.items ≡ to.old.items ++ drop (length from.old.items - count) from.old.items) }
    ensures from_stays { OnErr result (from.new.items ≡ from.old.items) }
    ensures to_stays { OnErr result (to.new.items ≡ to.old.items) }
{
    let at = from.len() - count;
    to.extend_from_slice(&from[at..])?;
    from.truncate(at);
    Ok(())
}
