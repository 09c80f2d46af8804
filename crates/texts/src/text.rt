// Texts: their lines, the first that is unlawful, and the line of a fault.
ghost use Rattle.std.specs.Prelude.{◌≡◌, length};
ghost use Rattle.std.specs.Option.{option_map};
ghost use Rattle.texts.specs.Texts.{lines_of, line_at, text_of, checked_length, checked_lines, checked_texts};
ghost use Rattle.texts.specs.Lines.{lines_left, Steps};
ghost use Rattle.std.specs.Iterator.{at_most};

use crate::refusal::{Place, Refusal, Source};
use crate::splitting::split_at_byte;
use grammar::fault::Fault;
use grammar::line::check_line;

/// How many bytes a text may have.
pub const MAX_TEXT: usize = 1_048_576;

/// How many bytes the input of a program may have.
pub const MAX_INPUT: usize = 8_192;

/// The lines of a text, one after another.
#[derive(Drop)]
pub struct Lines<'t> {
    rest: Option<&'t [u8]>,
}

impl<'t> Lines<'t> {
    /// All lines of a text.
    pub fn of(text: &'t [u8]) -> Lines<'t>
        ensures { lines_left (option_map (λ x. x.now) result.rest) ≡ lines_of text.now }
    {
        Lines { rest: Some(text) }
    }
}

impl<'t> Iterator for Lines<'t> {
    type Item = &'t [u8];

    ghost next_gives = { λ s r t. Steps (option_map (λ x. x.now) s.rest) (option_map (λ x. x.now) r) (option_map (λ x. x.now) t.rest) };

    ghost remaining = { λ s. at_most (length (lines_left (option_map (λ x. x.now) s.rest))) };

    fn next(&mut self) -> Option<&'t [u8]> {
        let (line, rest) = split_at_byte(self.rest?, b'\n');
        self.rest = rest;
        Some(line)
    }
}

fn check_length(text: &[u8], source: Source) -> Result<(), Refusal>
    ensures { result ≡ checked_length source text.now }
{
    if text.len() > MAX_TEXT {
        Err(Refusal::TooLong(source))
    } else {
        Ok(())
    }
}

fn check_lines(text: &[u8], source: Source) -> Result<(), Refusal>
    ensures { result ≡ checked_lines source 1 (lines_of text.now) }
{
    for (before, line) in Lines::of(text).enumerate() {
        if let Err(Fault { rule, column }) = check_line(line) {
            let line = before + 1;
            return Err(Refusal::Unlawful(
                rule,
                Place {
                    source,
                    line,
                    column,
                },
            ));
        }
    }
    Ok(())
}

// The two texts go as two slices here and in all calls above: a host has them so, and a struct of both would say no more.

/// Whether both texts are lawful, or else what is refused first: a text's length, then line by line, the shipped text's lines
/// before the own text's.
pub fn check_texts(shipped: &[u8], own: &[u8]) -> Result<(), Refusal>
    ensures { result ≡ checked_texts shipped.now own.now }
{
    check_length(shipped, Source::Shipped)?;
    check_length(own, Source::Own)?;
    check_lines(shipped, Source::Shipped)?;
    check_lines(own, Source::Own)
}

// The text that a place names.
fn text_of<'t>(source: Source, shipped: &'t [u8], own: &'t [u8]) -> &'t [u8]
    ensures { result.now ≡ text_of source shipped.now own.now }
{
    match source {
        Source::Shipped => shipped,
        Source::Own => own,
    }
}

/// The line of a place, as a part of the text that the place names, or none if there is no such line.
pub fn faulty_line<'t>(place: Place, shipped: &'t [u8], own: &'t [u8]) -> Option<&'t [u8]>
    ensures { option_map (λ x. x.now) result ≡ line_at (lines_of (text_of place.source shipped.now own.now)) place.line }
{
    let text = text_of(place.source, shipped, own);
    let before = place.line.checked_sub(1)?;
    Lines::of(text).nth(before)
}
