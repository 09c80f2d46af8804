// Names as text. A name's arguments are names, so the two readers call each other; each goes on to the end of what
// it reads, or stops at the line's fault.
ghost use Rattle.std.specs.Prelude.{◌≡◌, ◌-◌, ◌<◌, ◌≤◌, List, length, IsTrue, MatchOption};
ghost use Rattle.grammar.specs.Bytes.{begins, continues};
ghost use Rattle.grammar.specs.Grammar.{Named};
ghost use Rattle.grammar.specs.Reading.{Part, fresh, in_name};
ghost use Rattle.grammar.specs.Posts.{onward, recalled, reads, byte_of, PastRead, WordRead, NameRead};
ghost use Rattle.grammar.specs.Posts.{misfit as fault-at};

use crate::bytes::{is_printable, is_word_byte, is_word_start};
use crate::cursor::Cursor;
use crate::fault::{Fault, Rule};

/// How many brackets may be open at once.
pub const MAX_OPEN: u8 = 8;

/// How many bytes an outermost name may have.
pub const MAX_NAME: usize = 64;

impl<'t> Cursor<'t> {
    // Where an outermost name may begin.
    pub(crate) fn at(line: &'t [u8], pos: usize) -> Cursor<'t>
        requires { pos ≤ length line.now }
        ensures line { result.line ≡ line.entry }
        ensures from { result.from ≡ pos }
        ensures pos { result.pos ≡ pos }
        ensures depth { result.depth ≡ 0 }
        ensures reads { (p : Part) (ns : List Named) → reads p fresh ns result ≡ onward line.entry.now pos (in_name p fresh 0) (recalled line.entry.now ns pos pos) }
    {
        Cursor {
            line,
            from: pos,
            pos,
            depth: 0,
        }
    }

    // The byte here; none at the line's end.
    pub(crate) fn byte(self) -> Option<u8>
        ensures { MatchOption result (length self.entry.line.now ≤ self.entry.pos) (λ b. (self.entry.pos < length self.entry.line.now) × (b ≡ byte_of self.entry)) }
    {
        self.line.get(self.pos).copied()
    }

    // The fault here, where the grammar has no place for what stands here.
    pub(crate) fn misfit(self) -> Fault
        ensures { result ≡ fault-at self.entry.line.now self.entry.pos self.entry.depth }
    {
        let rule = match self.byte() {
            None if self.depth > 0 => Rule::Brackets,
            None => Rule::Grammar,
            Some(b) if !is_printable(b) => Rule::Printable,
            Some(b']') if self.depth == 0 => Rule::Brackets,
            Some(_) => Rule::Grammar,
        };
        Fault {
            rule,
            column: self.pos + 1,
        }
    }

    // Past the byte here, so that so many brackets are open, or the limit that is passed here.
    fn past(self, depth: u8) -> Result<Cursor<'t>, Fault>
        requires { self.pos < length self.line.now }
        ensures { PastRead self.entry depth result }
    {
        let column = self.pos + 1;
        if depth > MAX_OPEN {
            let rule = Rule::Brackets;
            return Err(Fault { rule, column });
        }
        if self.pos - self.from >= MAX_NAME {
            let rule = Rule::Length;
            return Err(Fault { rule, column });
        }
        Ok(Cursor {
            line: self.line,
            from: self.from,
            pos: self.pos + 1,
            depth,
        })
    }

    // Whether a word begins here.
    fn begins_word(self) -> bool
        ensures value { result ≡ begins (byte_of self.entry) }
        ensures here { IsTrue result → self.entry.pos < length self.entry.line.now }
    {
        self.byte().is_some_and(is_word_start)
    }

    // Whether a word goes on here.
    fn continues_word(self) -> bool
        ensures value { result ≡ continues (byte_of self.entry) }
        ensures here { IsTrue result → self.entry.pos < length self.entry.line.now }
    {
        self.byte().is_some_and(is_word_byte)
    }

    // The end of the word here.
    fn word(self) -> Result<Cursor<'t>, Fault>
        ensures { WordRead self.entry result }
    {
        if !self.begins_word() {
            return Err(self.misfit());
        }
        let mut end = self.past(self.depth)?;
        // Byte by byte: each may pass a limit, and is then the fault.
        while end.continues_word() {
            end = end.past(self.depth)?;
        }
        Ok(end)
    }

    // The end of the name here. Inlined, so that no cursor is handed over for a name without brackets.
    #[inline(always)]
    #[cycle(arguments_name)]
    pub(crate) fn name(self) -> Result<Cursor<'t>, Fault>
        ensures { NameRead self.entry self.entry.depth result }
    {
        let end = self.word()?;
        match end.byte() {
            Some(b'[') => end.past(end.depth + 1)?.arguments(),
            _ => Ok(end),
        }
    }

    // The end of the arguments here, past the bracket that closes them.
    #[cycle(arguments_name)]
    fn arguments(self) -> Result<Cursor<'t>, Fault>
        requires { 0 < self.depth }
        ensures { NameRead self.entry (self.entry.depth - 1) result }
    {
        let end = self.name()?;
        match end.byte() {
            Some(b',') => end.past(end.depth)?.arguments(),
            Some(b']') => end.past(end.depth - 1),
            _ => Err(end.misfit()),
        }
    }
}
