// The interface through which types are laid out in chains.
ghost use Rattle.std.specs.Prelude.{◌≡◌, ℕ, ◌*◌, ◌≤◌, List, length, take, drop};
ghost use Rattle.descent.specs.declared.link.Link.{Link as Edge};
ghost use Rattle.chains.specs.Meaning.{Decomposes};

use crate::ranked::RankedTypes;

/// The entries of working memory that a decomposer may use for each type.
pub const SCRATCH_PER_TYPE: usize = 3;

/// Lays ranked types out in chains. Its meaning is one chain and one position for every type, no two types the same
/// pair; chain numbers, and the positions on each chain, run from 0 without a gap; a path runs from each type on a
/// chain to the next one.
pub trait Decomposer {
    /// What it may write for so many types with these links in this order: the chain of each type, the position of
    /// each, and the number of chains.
    ghost gives: { Self → ℕ → List Edge → List ℕ → List ℕ → List ℕ → ℕ → Type 0 };

    /// Writes the chain and the position of each type to the front of the two tables, and answers the number of
    /// chains. `scratch` is working memory.
    fn decompose(
        &self,
        ranked: &RankedTypes,
        scratch: &mut [u16],
        chain: &mut [u16],
        position: &mut [u16],
    ) -> u16
        requires scratch_room { 3 * ranked.now.types ≤ length scratch.old }
        requires chain_room { ranked.now.types ≤ length chain.old }
        requires position_room { ranked.now.types ≤ length position.old }
        ensures given { gives self.now ranked.now.types ranked.now.links.now ranked.now.order.now (take ranked.now.types chain.new) (take ranked.now.types position.new) result }
        ensures count { result ≤ ranked.now.types }
        ensures chain_rest { drop ranked.now.types chain.new ≡ drop ranked.now.types chain.old }
        ensures position_rest { drop ranked.now.types position.new ≡ drop ranked.now.types position.old };

    /// Whatever it gives has the interface's meaning.
    ghost meaning: { (d : Self) → Decomposes (gives d) };
}
