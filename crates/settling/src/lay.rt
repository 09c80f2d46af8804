// The first part of settling: ranks, and a loop or chains.
ghost use Rattle.std.specs.Prelude.{◌≡◌, ℕ, ◌*◌, ◌≤◌, length, drop};
ghost use Rattle.settling.specs.Laying.{LaysOut};

use crate::graph::Graph;
use crate::outcome::Unsettled;
use chains::decomposer::Decomposer;
use chains::falling::sort_falling;
use chains::ranked::RankedTypes;
use order::looping::find_loop;
use order::ranking::rank_types;

// Ranks the types, to the front of scratch, and lays them out in chains, and answers the number of chains; or writes a loop.
// The tables come one by one: what a field of `Tables` holds is not known any more once a part of it is lent for reading.
pub(crate) fn lay_out<D: Decomposer>(
    decomposer: &D,
    graph: &Graph,
    order: &mut [u16],
    chain: &mut [u16],
    position: &mut [u16],
    kept: &mut [u16],
    loop_table: &mut [u16],
    scratch: &mut [u16],
) -> Result<u16, Unsettled>
    requires order_room { graph.now.types ≤ length order.old }
    requires chain_room { graph.now.types ≤ length chain.old }
    requires position_room { graph.now.types ≤ length position.old }
    requires kept_room { length graph.now.links.now ≤ length kept.old }
    requires loop_room { graph.now.types ≤ length loop_table.old }
    requires scratch_room { 4 * graph.now.types ≤ length scratch.old }
    ensures laid { LaysOut (D.Decomposer.gives decomposer.now) graph.now.types graph.now.links.now loop_table.old result loop_table.new order.new scratch.new chain.new position.new }
    ensures order_rest { drop graph.now.types order.new ≡ drop graph.now.types order.old }
    ensures chain_rest { drop graph.now.types chain.new ≡ drop graph.now.types chain.old }
    ensures position_rest { drop graph.now.types position.new ≡ drop graph.now.types position.old }
    ensures kept_rest { drop (length graph.now.links.now) kept.new ≡ drop (length graph.now.links.now) kept.old }
{
    let Graph { types, links } = *graph;
    let (rank, work) = scratch.split_at_mut(types as usize);
    let ranked = rank_types(types, links, order, rank, work);
    if ranked < types as usize {
        let length = find_loop(types, links, rank, loop_table);
        return Err(Unsettled::Loop { length });
    }
    sort_falling(types, links, rank, kept);
    let view = RankedTypes {
        types,
        links,
        order: &order[..ranked],
        rank,
        falling: &kept[..links.len()],
    };
    Ok(decomposer.decompose(&view, work, chain, position))
}
