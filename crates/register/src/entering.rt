// Entering what lines declare: names, and links from the first name of a line to its bases.
ghost use Rattle.std.specs.Prelude.{◌≡◌, ◌<◌, ◌∷◌, map, length, Some, None, Err};
ghost use Rattle.grammar.specs.Declarations.{name_of, names_of};
ghost use Rattle.grammar.specs.Reading.{reading};
ghost use Rattle.texts.specs.Refusals.{place};
ghost use Rattle.register.specs.Contents.{contents_of};
ghost use Rattle.register.specs.Entries.{names_on, with_base, with_bases, with_names};
ghost use Rattle.register.specs.Growing.{NameEnters, Enters, EntersUnless};
ghost use Rattle.register.specs.Places.{name_refusal, no_base, no_bases, no_names};

use crate::refusal::{Refusal, Unloaded};
use crate::register::Register;
use grammar::declaration::{Declaration, Name, Unread, read_line};
use names::refusal::{Entry, Refusal as NameRefusal};
use std::alloc::Global;
use texts::refusal::{Place, Source};

// A line of one of the two texts, by its number.
#[derive(Clone, Copy)]
pub(crate) struct Line {
    pub(crate) source: Source,
    pub(crate) number: usize,
}

impl Line {
    // The place on it at a column.
    fn at(self, column: usize) -> Place
        ensures { result ≡ place self.source self.number column }
    {
        Place {
            source: self.source,
            line: self.number,
            column,
        }
    }
}

// The refusal of a name that stands at a place.
fn refusal_at(refusal: NameRefusal, at: Place) -> Refusal
    ensures { name_refusal at (Err refusal) ≡ Some result }
{
    match refusal {
        NameRefusal::NoTypePlace => Refusal::NoTypePlace(at),
        NameRefusal::NoBytePlace => Refusal::NoBytePlace(at),
    }
}

impl Register {
    // Enters a name, and answers its number.
    fn enter_name(&mut self, bytes: &[u8], at: Place) -> Result<u16, Refusal>
        ensures { NameEnters (contents_of self.old) bytes.now at result (contents_of self.new) }
    {
        let entered = self.names.enter(bytes);
        match entered.map_err(|refusal| refusal_at(refusal, at))? {
            Entry::Known(number) => Ok(number),
            Entry::New(number) => {
                self.numbered.enter_type().unwrap();
                Ok(number)
            }
        }
    }

    // Enters a base: its name, and the link to it. Both ends are types then, so that only a place can be wanting.
    fn enter_base(&mut self, from: u16, base: &[u8], at: Place) -> Result<(), Refusal>
        requires { from < length (contents_of self.old).entries.names }
        ensures { Enters (no_base (contents_of self.old).room from (contents_of self.old).entries base.now at) (with_base from (contents_of self.old).entries base.now) (contents_of self.old) result (contents_of self.new) }
    {
        let to = self.enter_name(base, at)?;
        let entered = self.numbered.enter_link(from, to);
        entered.map_err(|_| Refusal::NoLinkPlace(at))?;
        Ok(())
    }

    // Enters the bases of a line in turn.
    fn enter_bases(&mut self, from: u16, bases: &[Name], line: Line) -> Result<(), Refusal>
        requires { from < length (contents_of self.old).entries.names }
        ensures { Enters (no_bases (contents_of self.old).room line.source line.number from (contents_of self.old).entries (map name_of bases.now)) (with_bases from (contents_of self.old).entries (map name_of bases.now)) (contents_of self.old) result (contents_of self.new) }
    {
        for base in bases {
            self.enter_base(from, base.bytes, line.at(base.column))?;
        }
        Ok(())
    }

    // Enters what a line declares: its first name, then its bases.
    pub(crate) fn enter_declaration(
        &mut self,
        declaration: &Declaration,
        line: Line,
    ) -> Result<(), Refusal>
        ensures { Enters (no_names (contents_of self.old).room line.source line.number (contents_of self.old).entries (names_of declaration.now)) (with_names (contents_of self.old).entries (names_of declaration.now)) (contents_of self.old) result (contents_of self.new) }
    {
        let name = declaration.name;
        let from = self.enter_name(name.bytes, line.at(name.column))?;
        self.enter_bases(from, &declaration.bases, line)
    }
}
