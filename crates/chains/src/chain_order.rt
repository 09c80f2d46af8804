// Chain order: in rank order, each type on no chain begins the next chain; while the chain's last type has bases on
// no chain, the one of lowest rank is added.
ghost use Rattle.std.specs.Prelude.{◌≡◌, ℕ, ◌<◌, ◌≤◌, length};
ghost use Rattle.chains.specs.ChainOrder.{next_base, lengthened, chain_order};
ghost use Rattle.chains.specs.Meaning.{ByChainOrder};
ghost use Rattle.chains.specs.Places.{places};
ghost use Rattle.chains.specs.ChainOrders.{chain_order_meaning};

use crate::decomposer::Decomposer;
use crate::ranked::RankedTypes;

// What stands for the chain and the position of a type that is on no chain: the tables are the host's, of 16-bit numbers.
const ON_NO_CHAIN: u16 = 65535;

// Of the bases of t that are on no chain, the one of lowest rank.
fn next_base(ranked: &RankedTypes, chain: &[u16], t: u16) -> Option<u16>
    requires { ranked.now.types ≤ length chain.now }
    ensures { result ≡ next_base ranked.now.links.now ranked.now.order.now chain.now t }
{
    // By hand, and with the number of types where there is none yet: it is what most of chain order takes, and with an
    // `Option` in its place the loop takes near twice as long. Over `filter`, `map` and `min` the proof does not close.
    let mut lowest = ranked.types;
    for link in ranked.links {
        if link.from == t && chain[link.to as usize] == ON_NO_CHAIN {
            let rank = ranked.rank[link.to as usize];
            if rank < lowest {
                lowest = rank;
            }
        }
    }
    if lowest < ranked.types {
        Some(ranked.order[lowest as usize])
    } else {
        None
    }
}

// Adds to chain c, whose one type is t: while its last type has bases on no chain, the one of lowest rank.
fn lengthen(ranked: &RankedTypes, c: u16, t: u16, chain: &mut [u16], position: &mut [u16])
    requires chain_room { ranked.now.types ≤ length chain.old }
    requires position_room { ranked.now.types ≤ length position.old }
    ensures chains { chain.new ≡ (lengthened ranked.now.links.now ranked.now.order.now c (record { last = t; position = 0; chains = chain.old; positions = position.old }) ranked.now.types).chains }
    ensures positions { position.new ≡ (lengthened ranked.now.links.now ranked.now.order.now c (record { last = t; position = 0; chains = chain.old; positions = position.old }) ranked.now.types).positions }
{
    let mut last = t;
    // A pass is counted: it adds the type at the position after its number.
    for step in 0..ranked.types {
        let Some(base) = next_base(ranked, chain, last) else {
            return;
        };
        chain[base as usize] = c;
        position[base as usize] = step + 1;
        last = base;
    }
}

// Lays the types out in chains, over tables of one entry for each type; answers the number of chains.
fn lay_chains(ranked: &RankedTypes, chain: &mut [u16], position: &mut [u16]) -> u16
    requires chain_room { ranked.now.types ≡ length chain.old }
    requires position_room { ranked.now.types ≡ length position.old }
    ensures laid { places result chain.new position.new ≡ chain_order ranked.now.types ranked.now.links.now ranked.now.order.now }
    ensures count { result ≤ ranked.now.types }
{
    chain.fill(ON_NO_CHAIN);
    position.fill(ON_NO_CHAIN);
    // How many chains there are is also the number of the next one, so it is counted on the way.
    let mut count: u16 = 0;
    for t in ranked.order {
        if chain[*t as usize] == ON_NO_CHAIN {
            chain[*t as usize] = count;
            position[*t as usize] = 0;
            lengthen(ranked, count, *t, chain, position);
            count += 1;
        }
    }
    count
}

/// The decomposer that lays types out by chain order.
#[derive(Clone, Copy)]
pub struct ChainOrder;

impl Decomposer for ChainOrder {
    ghost gives = { λ _. ByChainOrder };

    ghost meaning = { λ d n links order rank chains positions count few ranks e. chain_order_meaning n links order rank chains positions count few ranks e };

    fn decompose(
        &self,
        ranked: &RankedTypes,
        _scratch: &mut [u16],
        chain: &mut [u16],
        position: &mut [u16],
    ) -> u16 {
        let types = ranked.types as usize;
        lay_chains(ranked, &mut chain[..types], &mut position[..types])
    }
}
