// Vetting a declaration text: what the program answers to an input, as bytes.
#![tactic(auto)]

ghost use Rattle.std.specs.Prelude.{◌≡◌, ◌<◌, ◌≤◌, ◌++◌, map, length, IfOk, codes, OnOk};
ghost use Rattle.grammar.specs.Declarations.{name_of, names_of};
ghost use Rattle.grammar.specs.Reading.{reading};
ghost use Rattle.texts.specs.Texts.{lines_of};
ghost use Rattle.vetting.specs.Vetting.{shown_bases, shown_names, shown_tally, with_line, with_lines, none, vetted};
ghost use Rattle.vetting.specs.Tallies.{tally_of};

mod tally;

use crate::tally::Tally;
use grammar::declaration::{Declaration, Name, Unread, read_line};
use std::alloc::{AllocError, Global};
use texts::refusal::Report;
pub use texts::text::MAX_INPUT;
use texts::text::{Lines, check_texts};

// Each base with what parts it from the name before.
fn write_bases(out: &mut Vec<u8>, bases: &[Name]) -> Result<(), AllocError>
    ensures { OnOk result (out.new.items ≡ out.old.items ++ shown_bases (codes " < ") (map name_of bases.now)) }
{
    let mut separator: &[u8] = b" < ";
    for base in bases {
        out.extend_from_slice(separator)?;
        out.extend_from_slice(base.bytes)?;
        separator = b", ";
    }
    Ok(())
}

// A declaration as the reader understood it: the name, its bases, and byte 10.
fn write_declaration(out: &mut Vec<u8>, declaration: &Declaration) -> Result<(), AllocError>
    ensures { OnOk result (out.new.items ≡ out.old.items ++ shown_names (names_of declaration.now)) }
{
    out.extend_from_slice(declaration.name.bytes)?;
    write_bases(out, &declaration.bases)?;
    out.push(b'\n')?;
    Ok(())
}

impl Tally {
    // One line more, whose declaration, if it has one, is written.
    fn add_line(&mut self, heap: Global, line: &[u8]) -> Result<(), AllocError>
        requires { self.old.lines < 8193 }
        ensures { OnOk result (tally_of self.new ≡ with_line (tally_of self.old) (reading line.now)) }
    {
        self.lines += 1;
        match read_line(heap, line) {
            Ok(Some(declaration)) => {
                write_declaration(&mut self.shown, &declaration)?;
                self.declarations += 1;
                Ok(())
            }
            Ok(None) | Err(Unread::Unlawful(_)) => Ok(()),
            Err(Unread::NoMemory) => Err(AllocError),
        }
    }
}

// The declarations of the text's lines, and their counts.
fn declarations(heap: Global, text: &[u8]) -> Result<Vec<u8>, AllocError>
    requires short { length text.now ≤ 8192 }
    ensures { IfOk result (λ v. v.items ≡ shown_tally (with_lines none (lines_of text.now))) }
{
    let mut tally = Tally {
        shown: Vec::new(heap),
        declarations: 0,
        lines: 0,
    };
    for line in Lines::of(text) {
        tally.add_line(heap, line)?;
    }
    let Tally {
        mut shown,
        declarations,
        lines,
    } = tally;
    let counts = format!(in heap; "lawful: {declarations} declarations, {lines} lines\n")?;
    shown.extend_from_slice(counts.as_bytes())?;
    Ok(shown)
}

/// What the program writes for an input: the declarations as they were understood and their counts, or what is refused.
pub fn vet(heap: Global, input: &[u8]) -> Result<Vec<u8>, AllocError>
    ensures { IfOk result (λ v. v.items ≡ vetted input.now) }
{
    if input.len() > MAX_INPUT {
        return Report::without_place(1).to_line(heap);
    }
    match check_texts(&[], input) {
        Ok(()) => declarations(heap, input),
        Err(refusal) => refusal.report().to_line(heap),
    }
}
