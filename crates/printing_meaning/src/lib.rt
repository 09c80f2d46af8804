// What printing and loading mean together: a printed book reads back.
#![tactic(auto)]

ghost use Rattle.printing_meaning.specs.LawfulNames.{LinesHoldLawfulNames, TextsEnterLawfulNames};
ghost use Rattle.printing_meaning.specs.RoundTrip.{PrintedBooksReadBack, MarkedLinksArePrintable};

/// The text of a book, loaded into a new book of the same sizes, is accepted, and gives the same types with the same numbers
/// and exactly the kept links.
pub fn a_printed_book_reads_back_with_the_same_types_and_exactly_the_kept_links()
    ensures { PrintedBooksReadBack }
{}

/// Each name on a lawful line is a lawful line by itself.
pub fn names_on_lawful_lines_are_lawful()
    ensures { LinesHoldLawfulNames }
{}

/// Texts enter names that are lawful by themselves.
pub fn texts_enter_lawful_names()
    ensures { TextsEnterLawfulNames }
{}

/// The marked links of a book can be printed where all its links can.
pub fn marked_links_are_printable()
    ensures { MarkedLinksArePrintable }
{}
