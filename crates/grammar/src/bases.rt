// The first name of a line, and its bases, one after another.
ghost use Rattle.std.specs.Prelude.{◌≡◌, ◌+◌, ◌≤◌, [], ◌∷◌, length, MatchResult};
ghost use Rattle.std.specs.Iterator.{at_most};
ghost use Rattle.grammar.specs.Reading.{first, fresh, in_name, nothing, unlawful};
ghost use Rattle.grammar.specs.Grammar.{named};
ghost use Rattle.grammar.specs.Posts.{onward, part};
ghost use Rattle.grammar.specs.Declarations.{name_of};
ghost use Rattle.grammar.specs.Bases.{left_of, Within, bytes_left, FirstTaken, BaseTaken, Steps};

use crate::cursor::Cursor;
use crate::declaration::Name;
use crate::fault::Fault;

impl<'t> Cursor<'t> {
    // The outermost name that ends here.
    fn name_before(self) -> Name<'t>
        ensures { name_of result ≡ named (self.entry.from + 1) (part self.entry.line.now self.entry.from self.entry.pos) }
    {
        Name {
            column: self.from + 1,
            bytes: &self.line[self.from..self.pos],
        }
    }
}

// The first name, and where the first base begins; none where the line is over. A function beside `base`, since what parts
// the two differs, and so what is proved of them.
fn first_name(line: &[u8]) -> Result<(Name, Option<usize>), Fault>
    ensures { FirstTaken line.now result }
{
    let end = Cursor::at(line, 0).name()?;
    let next = end.after_first()?;
    Ok((end.name_before(), next))
}

// The base at `start`, and where the next one begins; none where the line is over.
fn base(line: &[u8], start: usize) -> Result<(Name, Option<usize>), Fault>
    requires within { start ≤ length line.now }
    ensures { BaseTaken line.now start result }
{
    let end = Cursor::at(line, start).name()?;
    let next = end.after_base()?;
    Ok((end.name_before(), next))
}

// The bases of a line that are still to be read; after a fault there are none.
#[derive(Drop)]
pub(crate) struct Bases<'t> {
    line: &'t [u8],
    start: Option<usize>,
    ghost within: { Within line.now start },
}

/// The first name of a line, and the bases after it.
// Inlined, as `next` is, so that names and faults are not copied on their way to who reads them.
#[inline(always)]
pub(crate) fn names_of<'t>(line: &'t [u8]) -> Result<(Name<'t>, Bases<'t>), Fault>
    ensures { MatchResult result (λ p. (p.1.line.now ≡ line.now) × (onward line.now 0 (in_name first fresh 0) nothing ≡ left_of line.now p.1.start (name_of p.0 ∷ []))) (λ x. onward line.now 0 (in_name first fresh 0) nothing ≡ unlawful x) }
{
    let (name, start) = first_name(line)?;
    Ok((name, Bases { line, start }))
}

impl<'t> Iterator for Bases<'t> {
    type Item = Result<Name<'t>, Fault>;

    ghost next_gives = { λ s r t. (t.line ≡ s.line) × Steps s.line.now s.start r t.start };

    ghost remaining = { λ s. at_most (bytes_left s.line.now s.start) };

    #[inline(always)]
    fn next(&mut self) -> Option<Result<Name<'t>, Fault>> {
        match base(self.line, self.start?) {
            Ok((name, next)) => {
                self.start = next;
                Some(Ok(name))
            }
            Err(fault) => {
                self.start = None;
                Some(Err(fault))
            }
        }
    }
}
