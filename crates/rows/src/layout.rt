// Ranked types laid out in chains, by the tables that hold them.
ghost use Rattle.std.specs.Prelude.{◌≡◌, ◌+◌, ◌*◌, ◌<◌, ◌≤◌, length, slice_index};
ghost use Rattle.chains.specs.Chains.{Chained};
ghost use Rattle.chains.specs.Ranked.{Ranked};
ghost use Rattle.rows.specs.KeptEntries.{Different};

use descent::link::Link;
use std::ops::Range;

/// Types below `types` laid out in `chains` chains: their links, no two of them the same, the type of each rank and the
/// rank of each type, the chain and the position of each type.
// How many types there are stands beside the tables, which are lent and may be longer.
#[derive(Clone, Copy)]
pub struct Layout<'l, 'o, 'r, 'c, 'p> {
    pub types: u16,
    pub chains: u16,
    pub links: &'l [Link],
    pub order: &'o [u16],
    pub rank: &'r [u16],
    pub chain: &'c [u16],
    pub position: &'p [u16],
    ghost ranked: { Ranked types links.now order.now rank.now },
    ghost chained: { ∥ Chained types links.now chain.now position.now chains ∥₁ },
    ghost different: { Different links.now },
    ghost small: { types ≤ 65535 },
    ghost few: { length links.now ≤ 65535 },
    ghost ranks: { types ≤ length rank.now },
    ghost places: { types ≤ length chain.now },
    ghost positions: { types ≤ length position.now },
}

impl Layout<'_, '_, '_, '_, '_> {
    // The places of the row of t: one for each chain, where the rows of all types stand one after another.
    pub(crate) fn row(&self, t: u16) -> Range<usize>
        ensures start { result.start ≡ t * self.now.chains }
        ensures end { result.end ≡ t * self.now.chains + self.now.chains }
    {
        let start = usize::from(t) * usize::from(self.chains);
        start..start + usize::from(self.chains)
    }

    // The place of the entry that the row of t has for the chain of b.
    pub(crate) fn place(&self, t: u16, b: u16) -> usize
        requires { b < self.now.types }
        ensures { result ≡ t * self.now.chains + slice_index self.now.chain.now b }
    {
        self.row(t).start + usize::from(self.chain[b as usize])
    }
}
