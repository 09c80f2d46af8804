// A book: what is entered and settled, the trials, and how many questions were answered.
ghost use Rattle.std.specs.Prelude.{◌≤◌, length, take};
ghost use Rattle.descent.specs.Links.{Within};
ghost use Rattle.register.specs.Contents.{contents_of};
ghost use Rattle.declarations.specs.Marks.{types_marked, links_marked};

use crate::ticket::Mark;
use register::register::Register;

/// A book of declared types over tables of the host. A trial is open while there is a mark.
#[derive(Drop)]
pub struct Book {
    pub(crate) register: Register,
    pub(crate) opened: u32,
    pub(crate) mark: Option<Mark>,
    pub(crate) asks: u32,
    ghost marked_types: { types_marked mark ≤ length (contents_of register).entries.names },
    ghost marked_links: { links_marked mark ≤ length (contents_of register).entries.links },
    ghost marked_within: { Within (take (links_marked mark) (contents_of register).entries.links) (types_marked mark) },
}
