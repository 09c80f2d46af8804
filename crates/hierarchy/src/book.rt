// The numbered book: what was entered, the tables that settling writes, and whether it is settled.
ghost use Rattle.std.specs.Prelude.{take};
ghost use Rattle.hierarchy.specs.Answering.{Answering};

use crate::entered::Entered;

/// A book of types and links by number, over tables of the host. It is settled while `chains` has the number of chains.
/// The tables stand one by one: `Tables` has the link table too, which is part of `entered` here.
#[derive(Drop)]
pub struct Hierarchy {
    pub(crate) number: u32,
    pub(crate) entered: Entered,
    pub(crate) order: Vec<u16>,
    pub(crate) chain: Vec<u16>,
    pub(crate) position: Vec<u16>,
    pub(crate) kept: Vec<u16>,
    pub(crate) index: Vec<u16>,
    pub(crate) chains: Option<u16>,
    ghost answering: { ∥ Answering chains entered.types (take entered.count entered.links.items) order.items chain.items position.items kept.items index.items ∥₁ },
}
