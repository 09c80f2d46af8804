// What is proved of books, beyond the contracts of their calls: a printed book reads back, and worked books come out as told.
#![tactic(auto)]

ghost use Rattle.book_meaning.specs.ReadingBack.{EveryBookReadsBack};
ghost use Rattle.book_meaning.specs.Tables.{TablesHoldExactlyTheEntries};
ghost use Rattle.book_meaning.specs.Worked.{WorkedBooks};

/// Pool, name table and link table hold exactly what is entered at their front, and 0 in the rest, whatever calls were made.
pub fn the_tables_hold_exactly_what_is_entered()
    ensures { TablesHoldExactlyTheEntries }
{}

/// The text that a settled book is printed as, loaded into a new book of the same sizes, is accepted, and gives the same types
/// with the same numbers and exactly the kept links.
pub fn every_book_that_is_printed_reads_back()
    ensures { EveryBookReadsBack }
{}

/// Each worked text enters, settles and answers as it is told beside it.
pub fn worked_texts_come_out_as_told()
    ensures { WorkedBooks }
{}
