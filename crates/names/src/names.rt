// The names of types over the host's byte pool and name table, and what the two tables hold at all times.
ghost use Rattle.std.specs.Prelude.{◌≡◌, ◌≤◌, length, vec_len};
ghost use Rattle.names.specs.Limits.{most_types, most_bytes};
ghost use Rattle.names.specs.Tables.{bytes_of, names_at, pool_of, spans_of, Different};

use crate::span::Span;

/// The most types of a book. `hierarchy` has the limit too: neither crate uses the other.
pub const MOST_TYPES: u16 = 1024;

/// The most bytes that the names of a book take.
pub const MOST_BYTES: usize = 65536;

/// The names of a book's types, numbered from 0 as they were entered. The names lie one after another at the front of the
/// pool, their spans at the front of the name table, and the rest of both tables is 0.
// The two numbers stand beside the tables since the host's tables have fixed lengths: `count` entries and `used` bytes are taken.
// There is no model in place of the fields, since `into_tables` promises the tables themselves.
#[derive(Drop)]
pub struct Names {
    pub(crate) pool: Vec<u8>,
    pub(crate) spans: Vec<Span>,
    pub(crate) count: u16,
    pub(crate) used: usize,
    ghost in_table: { count ≤ vec_len spans },
    ghost few_types: { count ≤ most_types },
    ghost in_pool: { used ≤ vec_len pool },
    ghost few_bytes: { used ≤ most_bytes },
    ghost in_use: { used ≡ length (bytes_of (names_at pool.items spans.items count)) },
    ghost whole_pool: { pool.items ≡ pool_of (names_at pool.items spans.items count) (vec_len pool) },
    ghost whole_table: { spans.items ≡ spans_of (names_at pool.items spans.items count) (vec_len spans) },
    ghost different: { Different (names_at pool.items spans.items count) },
}
