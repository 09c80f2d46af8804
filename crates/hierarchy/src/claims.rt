// What is proved of numbered books, beyond the contracts of the calls.
ghost use Rattle.hierarchy.specs.Books.{BooksAnswer};
ghost use Rattle.hierarchy.specs.Worked.{WorkedBooks};

/// Each worked book has the order, chains, joined chains, kept entries and rows that stand beside it.
pub fn worked_books_come_out_as_told()
    ensures { WorkedBooks }
{}

/// The tables of every settled book answer for what was entered.
pub fn the_tables_of_a_settled_book_answer()
    ensures { BooksAnswer }
{}
