// A register: names and the numbered book, which go together.
ghost use Rattle.std.specs.Prelude.{◌≡◌, length};
ghost use Rattle.hierarchy.specs.Books.{book_of};
ghost use Rattle.names.specs.Held.{names_in, table_size};

use hierarchy::book::Hierarchy;
use names::names::Names;

/// The types of a book by name, and their links by number. Each type has a name, and a type takes one entry of the name table.
#[derive(Drop)]
pub struct Register {
    pub(crate) names: Names,
    pub(crate) numbered: Hierarchy,
    ghost named: { (book_of numbered).held.types ≡ length (names_in names) },
    ghost room: { (book_of numbered).held.room ≡ table_size names },
}
