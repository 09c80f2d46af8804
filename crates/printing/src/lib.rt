// Printing a book: its names, and its kept links by name.
#![tactic(auto)]

ghost use Rattle.std.specs.Prelude.{◌≡◌, length};
ghost use Rattle.names.specs.Held.{names_in};
ghost use Rattle.rows.specs.KeptEntries.{marked};
ghost use Rattle.printing.specs.Printed.{printed, print_answer, out_after};
ghost use Rattle.printing.specs.Worked.{Worked};

use crate::book::Book;
use crate::output::Output;
use crate::refusal::ShortOutput;
use descent::link::Link;
use names::names::Names;

mod book;
mod output;
pub mod refusal;
mod writing;

/// Prints a book into an output, and answers how many bytes that are: each name on a line in the order of the numbers, then a
/// line for each type that has kept bases, with its bases in the order of their numbers. A link is kept where its entry is
/// there and is 1. An output that is too short is left as it is.
pub fn print(
    names: &Names,
    links: &[Link],
    kept: &[u16],
    out: &mut [u8],
) -> Result<usize, ShortOutput>
    ensures answer { result ≡ print_answer (printed (names_in names.now) (marked kept.now links.now)) (length out.old) }
    ensures output { out.new ≡ out_after (printed (names_in names.now) (marked kept.now links.now)) out.old }
{
    // The text is counted first, over no places, so that a text that is too long writes nothing.
    let book = Book { names, links, kept };
    let places = out.len();
    let mut counted = Output {
        out: &mut [],
        at: 0,
    };
    book.put(&mut counted);
    let needed = counted.at;
    if needed > places {
        return Err(ShortOutput { places, needed });
    }
    book.put(&mut Output { out, at: 0 });
    Ok(needed)
}

/// The worked examples.
pub fn the_animals_are_printed_as_worked()
    ensures { Worked }
{}
