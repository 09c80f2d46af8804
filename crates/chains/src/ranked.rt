// Ranked types: what a decomposer is given.
ghost use Rattle.std.specs.Prelude.{◌≤◌, length};
ghost use Rattle.chains.specs.Ranked.{Ranked, Falling};

use descent::link::Link;

/// At most 1,024 types with their links, the type of each rank, the rank of each type, and the numbers of the links,
/// those of higher-ranked types first.
// How many types there are stands beside the tables, which are lent and may be longer.
#[derive(Clone, Copy)]
pub struct RankedTypes<'l, 'o, 'r, 'f> {
    pub types: u16,
    pub links: &'l [Link],
    pub order: &'o [u16],
    pub rank: &'r [u16],
    pub falling: &'f [u16],
    ghost few: { types ≤ 1024 },
    ghost ranked: { Ranked types links.now order.now rank.now },
    ghost falls: { ∥ Falling links.now rank.now falling.now ∥₁ },
    ghost rank_room: { types ≤ length rank.now },
}
