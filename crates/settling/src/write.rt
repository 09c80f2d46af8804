// The second part of settling: rows and kept entries.
ghost use Rattle.std.specs.Prelude.{◌≡◌, ℕ, ◌*◌, ◌≤◌, length, take};
ghost use Rattle.chains.specs.Chains.{Chained};
ghost use Rattle.chains.specs.Ranked.{Ranked};
ghost use Rattle.settling.specs.Writing.{WritesAs};

use crate::graph::Graph;
use crate::outcome::{Settled, Unsettled};
use rows::layout::Layout;
use rows::write::write_rows;

// Writes rows and kept entries of types that are ranked, at the front of scratch, and laid out in chains, or says how many
// index entries that needs. The tables come one by one, as to `lay_out`.
pub(crate) fn write_entries(
    graph: &Graph,
    chains: u16,
    order: &mut [u16],
    chain: &mut [u16],
    position: &mut [u16],
    kept: &mut [u16],
    index: &mut [u16],
    scratch: &mut [u16],
) -> Result<Settled, Unsettled>
    requires few_chains { chains ≤ graph.now.types }
    requires ranked { Ranked graph.now.types graph.now.links.now (take graph.now.types order.old) (take graph.now.types scratch.old) }
    requires chained { Chained graph.now.types graph.now.links.now (take graph.now.types chain.old) (take graph.now.types position.old) chains }
    requires order_room { graph.now.types ≤ length order.old }
    requires chain_room { graph.now.types ≤ length chain.old }
    requires position_room { graph.now.types ≤ length position.old }
    requires kept_room { length graph.now.links.now ≤ length kept.old }
    requires scratch_room { 2 * graph.now.types ≤ length scratch.old }
    ensures order { order.new ≡ order.old }
    ensures chain { chain.new ≡ chain.old }
    ensures position { position.new ≡ position.old }
    ensures written { WritesAs graph.now.types graph.now.links.now chains (take graph.now.types chain.old) (take graph.now.types position.old) kept.old index.old result kept.new index.new }
{
    let Graph { types, links } = *graph;
    let n = types as usize;
    let needed = n * chains as usize;
    if index.len() < needed {
        return Err(Unsettled::ShortIndex { needed });
    }
    let (rank, slots) = scratch.split_at_mut(n);
    let layout = Layout {
        types,
        chains,
        links,
        order: &order[..n],
        rank,
        chain: &chain[..n],
        position: &position[..n],
    };
    let kept = write_rows(&layout, slots, kept, index);
    Ok(Settled {
        types,
        links: links.len(),
        chains,
        kept,
    })
}
