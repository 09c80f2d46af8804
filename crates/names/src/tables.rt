// The tables of the host: names are made over them, lend them for reading, and hand them out again.
ghost use Rattle.std.specs.Prelude.{◌≡◌, [], length, vec_len};
ghost use Rattle.names.specs.Tables.{pool_of, spans_of};
ghost use Rattle.names.specs.Held.{names_in, pool_size, table_size, Holds};

use crate::names::Names;
use crate::span::{NO_SPAN, Span};

impl Names {
    /// No names, over a pool and a name table of any lengths, which are set to 0 throughout.
    pub fn new(mut pool: Vec<u8>, mut spans: Vec<Span>) -> Names
        ensures { Holds [] (vec_len pool) (vec_len spans) result }
    {
        pool.fill(0);
        spans.fill(NO_SPAN);
        Names {
            pool,
            spans,
            count: 0,
            used: 0,
        }
    }

    /// Hands the pool and the name table out as they are.
    pub fn into_tables(self) -> (Vec<u8>, Vec<Span>)
        ensures same { result ≡ (self.pool, self.spans) }
        ensures pool { result.0.items ≡ pool_of (names_in self) (pool_size self) }
        ensures table { result.1.items ≡ spans_of (names_in self) (table_size self) }
    {
        let Names { pool, spans, .. } = self;
        (pool, spans)
    }

    /// How many types there are.
    pub fn count(&self) -> u16
        ensures { result ≡ length (names_in self.now) }
    {
        self.count
    }

    /// How many entries the name table has: a type takes one.
    pub fn room(&self) -> usize
        ensures { result ≡ table_size self.now }
    {
        self.spans.len()
    }

    /// The byte pool.
    pub fn pool(&self) -> &[u8]
        ensures { result.now ≡ pool_of (names_in self.now) (pool_size self.now) }
    {
        &self.pool
    }

    /// The name table.
    pub fn spans(&self) -> &[Span]
        ensures { result.now ≡ spans_of (names_in self.now) (table_size self.now) }
    {
        &self.spans
    }
}
