// Lines: what a line declares, or where it goes wrong. Names are read by the name reader.
ghost use Rattle.std.specs.Prelude.{◌≡◌, ◌<◌, not, position};
ghost use Rattle.grammar.specs.Bytes.{printable};
ghost use Rattle.grammar.specs.Reading.{first, base, fresh, in_name, comment, nothing, reading_from, reading};
ghost use Rattle.grammar.specs.Posts.{onward, Expected, NextRead, CommentRead, verdict};

use crate::bases::names_of;
use crate::bytes::is_printable;
use crate::cursor::Cursor;
use crate::fault::{Fault, Rule};

impl<'t> Cursor<'t> {
    // Past the byte `wanted` here, where no bracket is open.
    fn expect(self, wanted: u8) -> Result<Cursor<'t>, Fault>
        requires { 0 < wanted }
        ensures { Expected self.entry wanted result }
    {
        if self.byte() == Some(wanted) {
            Ok(Cursor::at(self.line, self.pos + 1))
        } else {
            Err(Cursor::at(self.line, self.pos).misfit())
        }
    }

    // Two functions, since their contracts differ: a first name and a base are followed by different parts of the grammar.

    // Past ` < ` after the first name, which ends here; none where the line is over.
    pub(crate) fn after_first(self) -> Result<Option<usize>, Fault>
        ensures { NextRead first self.entry result }
    {
        if self.byte().is_none() {
            return Ok(None);
        }
        let next = self.expect(b' ')?.expect(b'<')?.expect(b' ')?;
        Ok(Some(next.pos))
    }

    // Past `, ` after a base, which ends here; none where the line is over.
    pub(crate) fn after_base(self) -> Result<Option<usize>, Fault>
        ensures { NextRead base self.entry result }
    {
        if self.byte().is_none() {
            return Ok(None);
        }
        let next = self.expect(b',')?.expect(b' ')?;
        Ok(Some(next.pos))
    }
}

// Where the first byte stands that no comment may have.
fn find_unprintable(bytes: &[u8]) -> Option<usize>
    ensures { result ≡ position (λ b. not (printable b)) bytes.now }
{
    bytes.iter().position(|b| !is_printable(*b))
}

// Whether what follows `#` is lawful.
pub(crate) fn check_comment(rest: &[u8]) -> Result<(), Fault>
    ensures { CommentRead (reading_from comment nothing 2 rest.now) result }
{
    match find_unprintable(rest) {
        Some(place) => Err(Fault {
            rule: Rule::Printable,
            column: place + 2,
        }),
        None => Ok(()),
    }
}

// Whether a line that begins with a name is lawful.
fn check_declaration(line: &[u8]) -> Result<(), Fault>
    ensures { result ≡ verdict (onward line.now 0 (in_name first fresh 0) nothing) }
{
    let (_, bases) = names_of(line)?;
    for base in bases {
        base?;
    }
    Ok(())
}

/// Whether a line is lawful, or else its fault.
pub fn check_line(line: &[u8]) -> Result<(), Fault>
    ensures { result ≡ verdict (reading line.now) }
{
    match line {
        [] => Ok(()),
        [b'#', rest @ ..] => check_comment(rest),
        [_, ..] => check_declaration(line),
    }
}
