//! Items of version 1, brought up to date.

ghost use Rattle.std.specs.Prelude.{map, IfOk, IfErr};
ghost use Rattle.gp_syntax.specs.Tree.{rule_of_tree, item_of};
ghost use Rattle.gp_derivation.specs.Upgrade.{IsUpgrade, HasFault};

use crate::fault::UpgradeFault;
use crate::replay::Replay;
use gp_graph::Graph;
use gp_syntax::{Item, Rule};
use std::alloc::Global;

/// The items of version 2 of these items of version 1, by these rules and from this host: the same but for the numbers of
/// edges.
pub fn upgrade(
    alloc: Global,
    rules: &[Rule],
    host: Graph,
    items: &[Item],
) -> Result<Vec<Item>, UpgradeFault>
    ensures items { IfOk result (λ t. IsUpgrade (map rule_of_tree rules.now) host.graph (map item_of items.now) (map item_of t.items)) }
    ensures fault { IfErr result (HasFault (map rule_of_tree rules.now) host.graph (map item_of items.now)) }
{
    let mut replay = Replay::new(alloc, host)?;
    for (n, item) in items.iter().enumerate() {
        if !replay.follow(rules, item)? {
            return Err(UpgradeFault::Item(n as u64));
        }
    }
    Ok(replay.into_items())
}
