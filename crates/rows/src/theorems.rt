// What rows and kept entries mean, as theorems.
ghost use Rattle.rows.specs.Meaning.{RowsStartAtTheirPlaces, RowEntriesAreLowest, RowEntriesAnswerDescent, KeptEntriesAreTheReduction, KeptLinksAreFew, TrimWritesTheKeptEntries};
ghost use Rattle.rows.specs.Worked.{RowsWorked, FourLaidOut};

use descent::answerer::Answerer;

/// The worked examples have the rows and the kept entries that are stated.
pub fn the_worked_examples_have_their_rows_and_kept_entries()
    ensures { RowsWorked }
{}

/// What a layout is asked to be holds of a worked example: its types are ranked and laid out in chains, its links different.
pub fn a_worked_example_is_ranked_and_laid_out_in_chains()
    ensures { FourLaidOut }
{}

/// The rows stand one after another, an entry is the lowest position on its chain from whose type the row's type descends,
/// and a type descends from another exactly where its row entry at the other's chain is at most the other's position.
pub fn a_row_entry_at_most_the_position_is_exactly_descent()
    ensures places { RowsStartAtTheirPlaces }
    ensures lowest { RowEntriesAreLowest }
    ensures answers { RowEntriesAnswerDescent }
{}

/// The links with entry 1 have the descent of all links, and every set of links with that descent contains them.
pub fn kept_entries_are_the_transitive_reduction()
    ensures { KeptEntriesAreTheReduction }
{}

/// A type has at most one kept link into each chain, so that there are at most chains × types.
pub fn kept_links_are_at_most_chains_times_types()
    ensures { KeptLinksAreFew }
{}

/// A trim by an answerer whose relation is the descent of the links writes their kept entries and answers their number.
pub fn trim_by_any_answerer_that_means_descent_writes_the_kept_entries<P: Answerer>()
    ensures { TrimWritesTheKeptEntries P.Answerer.count P.Answerer.relates }
{}
