// What is proved of every history of a book.
ghost use Rattle.declarations.specs.Claims.{EveryHistoryKeepsTheLaw};

use descent::answerer::Answerer;

/// Whatever history of calls a book can have had keeps the law, with the trimming of its links by every answerer.
pub fn every_history_that_a_book_can_have_had_keeps_the_law<A: Answerer>()
    ensures { EveryHistoryKeepsTheLaw A.Answerer.count A.Answerer.relates }
{}
