// What a lawful line declares, read out of it.
ghost use Rattle.std.specs.Prelude.{◌≡◌};
ghost use Rattle.grammar.specs.Reading.{first, fresh, in_name, nothing, reading};
ghost use Rattle.grammar.specs.Posts.{onward};
ghost use Rattle.grammar.specs.Declarations.{names_of, all_names_of, Reads};
ghost use Rattle.grammar.specs.declared.declaration.Unread.TheVariants.{Unlawful, NoMemory};

use crate::bases::names_of;
use crate::fault::Fault;
use crate::line::check_comment;
use std::alloc::{AllocError, AllocFailed, Global};

/// A name of a line: the column of its first byte, counted from 1, and the bytes to keep.
#[derive(Clone, Copy, Debug)]
pub struct Name<'t> {
    pub column: usize,
    pub bytes: &'t [u8],
}

/// What a line declares: a type, and its bases in their sequence.
#[derive(Drop)]
pub struct Declaration<'t> {
    pub name: Name<'t>,
    pub bases: Vec<Name<'t>>,
}

/// Why a line was not read.
#[derive(Clone, Copy, Debug, PartialEq, Eq)]
pub enum Unread {
    Unlawful(Fault),
    NoMemory,
}

impl From<Fault> for Unread {
    ghost from_gives = { λ fault r. r ≡ Unlawful fault };

    fn from(fault: Fault) -> Unread {
        Unread::Unlawful(fault)
    }
}

impl<T: Drop> From<AllocFailed<T>> for Unread {
    ghost from_gives = { λ _ r. r ≡ NoMemory };

    fn from(_refused: AllocFailed<T>) -> Unread {
        Unread::NoMemory
    }
}

// A line that begins with a name.
fn read_declaration<'t>(heap: Global, line: &'t [u8]) -> Result<Declaration<'t>, Unread>
    ensures { Reads names_of (onward line.now 0 (in_name first fresh 0) nothing) result }
{
    let (name, rest) = names_of(line)?;
    let mut bases = Vec::new(heap);
    for base in rest {
        bases.push(base?)?;
    }
    Ok(Declaration { name, bases })
}

/// What a line declares, or none where it is empty or a comment; or else why it was not read.
pub fn read_line<'t>(heap: Global, line: &'t [u8]) -> Result<Option<Declaration<'t>>, Unread>
    ensures { Reads all_names_of (reading line.now) result }
{
    match line {
        [] => Ok(None),
        [b'#', rest @ ..] => {
            check_comment(rest)?;
            Ok(None)
        }
        [_, ..] => {
            let declaration = read_declaration(heap, line)?;
            Ok(Some(declaration))
        }
    }
}
