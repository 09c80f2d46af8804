// Loading texts: all that their lines enter, or nothing at all.
ghost use Rattle.std.specs.Prelude.{◌≡◌, None};
ghost use Rattle.grammar.specs.Reading.{reading};
ghost use Rattle.texts.specs.Texts.{lines_of};
ghost use Rattle.register.specs.Contents.{contents_of, LoadsAs};
ghost use Rattle.register.specs.Entries.{names_on, with_names, with_lines, with_texts};
ghost use Rattle.register.specs.Growing.{EntersUnless};
ghost use Rattle.register.specs.Places.{no_names, no_lines, no_texts};

use crate::entering::Line;
use crate::refusal::Unloaded;
use crate::register::Register;
use grammar::declaration::{Unread, read_line};
use std::alloc::Global;
use texts::refusal::Source;
use texts::text::{Lines, check_texts};

impl Register {
    // Enters what a line declares; one that is not lawful enters nothing.
    fn enter_line(&mut self, heap: Global, bytes: &[u8], line: Line) -> Result<(), Unloaded>
        ensures { EntersUnless (no_names (contents_of self.old).room line.source line.number (contents_of self.old).entries (names_on (reading bytes.now))) (with_names (contents_of self.old).entries (names_on (reading bytes.now))) (contents_of self.old) result (contents_of self.new) }
    {
        match read_line(heap, bytes) {
            Ok(Some(declaration)) => Ok(self.enter_declaration(&declaration, line)?),
            Ok(None) | Err(Unread::Unlawful(_)) => Ok(()),
            Err(Unread::NoMemory) => Err(Unloaded::NoMemory),
        }
    }

    // Enters what the lines of a text declare.
    fn enter_text(&mut self, heap: Global, text: &[u8], source: Source) -> Result<(), Unloaded>
        ensures { EntersUnless (no_lines (contents_of self.old).room source 1 (contents_of self.old).entries (lines_of text.now)) (with_lines (contents_of self.old).entries (lines_of text.now)) (contents_of self.old) result (contents_of self.new) }
    {
        for (before, bytes) in Lines::of(text).enumerate() {
            let number = before + 1;
            self.enter_line(heap, bytes, Line { source, number })?;
        }
        Ok(())
    }

    // Enters the shipped text, then the own one.
    fn enter_texts(&mut self, heap: Global, shipped: &[u8], own: &[u8]) -> Result<(), Unloaded>
        ensures { EntersUnless (no_texts (contents_of self.old).room (contents_of self.old).entries shipped.now own.now) (with_texts (contents_of self.old).entries shipped.now own.now) (contents_of self.old) result (contents_of self.new) }
    {
        self.enter_text(heap, shipped, Source::Shipped)?;
        self.enter_text(heap, own, Source::Own)
    }

    /// Loads the shipped text, then the own one: enters what their lines declare, or refuses and changes nothing at all.
    pub fn load(&mut self, heap: Global, shipped: &[u8], own: &[u8]) -> Result<(), Unloaded>
        ensures { LoadsAs (contents_of self.old) shipped.now own.now result (contents_of self.new) }
    {
        check_texts(shipped, own)?;
        let types = self.names.count();
        let links = self.numbered.link_count();
        let chains = self.numbered.settled_chains().ok();
        let entered = self.enter_texts(heap, shipped, own);
        match entered {
            Ok(()) => self.numbered.unsettle(),
            Err(_) => self.undo(types, links, chains),
        }
        entered
    }
}
