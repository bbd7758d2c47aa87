//! How deep a tree is, and how many nodes it has.

ghost use Rattle.std.specs.Prelude.{◌≡◌, ◌+◌, ◌-◌, ◌^◌, min};
ghost use Rattle.tt_proof.specs.Strategy.{depth, depth_of_entries, strategy_of, entries_of_reply};
ghost use Rattle.tt_proof.specs.Nodes.{nodes, nodes_of_entries};

use crate::tree::Tree;
use tt_game::Turn;

/// How many turns the longest way down has, and how many nodes there are; each the greatest number of its type where it
/// is more.
#[cycle(measures)]
pub(crate) fn measures(t: &Tree) -> (u16, u64)
    ensures levels { result.0 ≡ min (depth (strategy_of t.now)) (2 ^ 16 - 1) }
    ensures size { result.1 ≡ min (nodes (strategy_of t.now)) (2 ^ 64 - 1) }
{
    match t {
        Tree::Done => (0, 1),
        Tree::Pick(_, child) => {
            let (levels, size) = measures(child);
            (levels.saturating_add(1), size.saturating_add(1))
        }
        Tree::Reply(list) => measures_of_replies(list),
    }
}

#[cycle(measures)]
fn measures_of_replies(list: &[(Turn, Tree)]) -> (u16, u64)
    ensures levels { result.0 ≡ min (depth_of_entries (entries_of_reply list.now)) (2 ^ 16 - 1) }
    ensures size { result.1 ≡ min (nodes_of_entries (entries_of_reply list.now) + 1) (2 ^ 64 - 1) }
{
    let mut most = 0u16;
    let mut count = 1u64;
    for (_, child) in list {
        let (levels, size) = measures(child);
        let here = levels.saturating_add(1);
        if here > most {
            most = here;
        }
        count = count.saturating_add(size);
    }
    (most, count)
}
