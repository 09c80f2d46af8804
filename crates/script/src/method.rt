// The methods by which a script settles.
ghost use Rattle.script.specs.Methods.{given};
ghost use Rattle.chains.specs.ChainOrders.{chain_order_meaning};
ghost use Rattle.chains.specs.Renumbering.{joining_decomposes};
ghost use Rattle.chains.specs.Meaning.{Decomposes, ByChainOrder};
ghost use Rattle.script.specs.declared.method.Method.TheVariants.{Joined, Chains};

use chains::chain_order::ChainOrder;
use chains::decomposer::Decomposer;
use chains::joining::Joining;
use chains::ranked::RankedTypes;

/// How a settle lays types out in chains.
#[derive(Clone, Copy)]
pub enum Method {
    /// By joining over chain order.
    Joined,
    /// By chain order alone.
    Chains,
}

impl Decomposer for Method {
    ghost gives = { given };

    ghost meaning = { λ d. elim d as (λ m. Decomposes (given m)) [ Joined ↦ joining_decomposes ByChainOrder chain_order_meaning | Chains ↦ chain_order_meaning ] };

    fn decompose(
        &self,
        ranked: &RankedTypes,
        scratch: &mut [u16],
        chain: &mut [u16],
        position: &mut [u16],
    ) -> u16 {
        match *self {
            Method::Joined => {
                let joining = Joining { inner: ChainOrder };
                joining.decompose(ranked, scratch, chain, position)
            }
            Method::Chains => ChainOrder.decompose(ranked, scratch, chain, position),
        }
    }
}
