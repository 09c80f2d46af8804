// What is settled: types and the links between them.
ghost use Rattle.std.specs.Prelude.{◌≤◌, length};
ghost use Rattle.descent.specs.Links.{Within};
ghost use Rattle.rows.specs.KeptEntries.{Different};

use descent::link::Link;

/// At most 1,024 types, numbered from 0, and at most 8,192 links between them, no two of them the same.
#[derive(Clone, Copy)]
pub struct Graph<'l> {
    pub types: u16,
    pub links: &'l [Link],
    ghost few: { types ≤ 1024 },
    ghost few_links: { length links.now ≤ 8192 },
    ghost within: { Within links.now types },
    ghost different: { Different links.now },
}
