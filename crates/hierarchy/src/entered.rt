// The types and links that were entered, by number, over a link table of the host.
ghost use Rattle.std.specs.Prelude.{◌≤◌, take, vec_len};
ghost use Rattle.descent.specs.Links.{Within};
ghost use Rattle.hierarchy.specs.Tables.{Distinct, ZeroFrom};

use descent::link::Link;

/// How many types a book may have. `names` has the limit too: neither crate uses the other.
pub const MOST_TYPES: u16 = 1024;

/// How many links a book may have.
pub const MOST_LINKS: usize = 8192;

/// Types numbered from 0, and links between them, different from each other, at the front of their table; the rest of the table
/// is 0. The table is the host's and keeps its length, so how many links it holds is counted beside it.
#[derive(Drop)]
pub struct Entered {
    pub(crate) room: usize,
    pub(crate) types: u16,
    pub(crate) count: usize,
    pub(crate) links: Vec<Link>,
    ghost few_types: { (types ≤ room) × (types ≤ 1024) },
    ghost few_links: { (count ≤ vec_len links) × (count ≤ 8192) },
    ghost within: { Within (take count links.items) types },
    ghost different: { Distinct (take count links.items) },
    ghost zeros: { ZeroFrom count links.items },
}
