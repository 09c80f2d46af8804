// Settling over tables: the questions in their sequence, and what each answer leaves.
ghost use Rattle.std.specs.Prelude.{◌≡◌, ℕ, ◌≤◌, false, length};
ghost use Rattle.settling.specs.Lent.{entries_of, SameTables};
ghost use Rattle.settling.specs.Settling.{filled, short, SettlesAs};
ghost use Rattle.settling.specs.Laying.{Begins};

use crate::graph::Graph;
use crate::lay::lay_out;
use crate::outcome::{Settled, Unsettled};
use crate::tables::{Tables, UNWRITTEN};
use crate::write::write_entries;
use chains::decomposer::Decomposer;

/// The entries of scratch that settling needs for each type.
pub const SCRATCH_PER_TYPE: usize = 4;

impl Tables<'_> {
    // Whether one of the tables has too few entries.
    fn is_short(&self, graph: &Graph) -> bool
        ensures { result ≡ short graph.now.types (length graph.now.links.now) (entries_of self.now) }
    {
        let types = graph.types as usize;
        self.order.len() < types
            || self.chain.len() < types
            || self.position.len() < types
            || self.loop_table.len() < types
            || self.scratch.len() < SCRATCH_PER_TYPE * types
            || self.kept.len() < graph.links.len()
    }

    // The tables as a loop, or an index that is too short, leaves them.
    fn wipe(&mut self)
        ensures same { SameTables self.old self.new }
        ensures order { self.new.order.now ≡ filled 65535 self.old.order.now }
        ensures chain { self.new.chain.now ≡ filled 65535 self.old.chain.now }
        ensures position { self.new.position.now ≡ filled 65535 self.old.position.now }
        ensures kept { self.new.kept.now ≡ filled 65535 self.old.kept.now }
        ensures index { self.new.index.now ≡ filled 65535 self.old.index.now }
        ensures loop_table { self.new.loop_table.now ≡ self.old.loop_table.now }
    {
        self.order.fill(UNWRITTEN);
        self.chain.fill(UNWRITTEN);
        self.position.fill(UNWRITTEN);
        self.kept.fill(UNWRITTEN);
        self.index.fill(UNWRITTEN);
    }
}

// Ranks, chains, rows and kept entries, or what is refused; a refusal may leave anything in the tables but the loop.
fn settle_all<D: Decomposer>(
    decomposer: &D,
    graph: &Graph,
    tables: &mut Tables,
) -> Result<Settled, Unsettled>
    requires { short graph.now.types (length graph.now.links.now) (entries_of tables.old) ≡ false }
    ensures same { SameTables tables.old tables.new }
    ensures begins { Begins (D.Decomposer.gives decomposer.now) graph.now.types graph.now.links.now (entries_of tables.old) result (entries_of tables.new) }
{
    let chains = lay_out(
        decomposer,
        graph,
        tables.order,
        tables.chain,
        tables.position,
        tables.kept,
        tables.loop_table,
        tables.scratch,
    )?;
    write_entries(
        graph,
        chains,
        tables.order,
        tables.chain,
        tables.position,
        tables.kept,
        tables.index,
        tables.scratch,
    )
}

/// Settles types and links over the tables: writes their order, the chains and positions that one call of the decomposer gave,
/// rows and kept entries, or says why not.
pub fn settle_tables<D: Decomposer>(
    decomposer: &D,
    graph: &Graph,
    tables: &mut Tables,
) -> Result<Settled, Unsettled>
    ensures same { SameTables tables.old tables.new }
    ensures settles { SettlesAs (D.Decomposer.gives decomposer.now) graph.now.types graph.now.links.now (entries_of tables.old) result (entries_of tables.new) }
{
    if tables.is_short(graph) {
        return Err(Unsettled::ShortTable);
    }
    let settled = settle_all(decomposer, graph, tables);
    if settled.is_err() {
        tables.wipe();
    }
    tables.scratch.fill(0);
    settled
}
