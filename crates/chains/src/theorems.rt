// What decomposers mean, as theorems.
ghost use Rattle.chains.specs.Meaning.{ChainOrderDecomposes, JoinedChainOrder, JoiningDecomposes};
ghost use Rattle.chains.specs.Worked.{ChainsWorked, JoinsWorked, JointsWorked};

use crate::decomposer::Decomposer;

/// Chain order has a decomposer's meaning.
pub fn chain_order_has_the_decomposers_meaning()
    ensures { ChainOrderDecomposes }
{}

/// Joining over any decomposer has a decomposer's meaning.
pub fn joining_keeps_the_decomposers_meaning<D: Decomposer>()
    ensures { JoiningDecomposes D.Decomposer.gives }
{}

/// Joining over chain order gives exactly the chains of chain order, joined.
pub fn joining_over_chain_order_is_determined()
    ensures { JoinedChainOrder }
{}

/// The worked examples have the chains that they state, by chain order and joined.
pub fn the_worked_examples_have_their_chains()
    ensures chains { ChainsWorked }
    ensures joins { JoinsWorked }
    ensures joints { JointsWorked }
{}
