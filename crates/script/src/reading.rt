// Reading a script: from its lines to its steps.
ghost use Rattle.std.specs.Prelude.{◌≡◌, [], IfOk, vec_len, OnOk};
ghost use Rattle.script.specs.Lines.{said_by};
ghost use Rattle.script.specs.Reading.{with_line, text_of, reading_of, begun, with_step, with_tables, with_load, with_open, with_said, with_bytes, script_of};
ghost use Rattle.script.specs.Steps.{doing};

use crate::line::{Line, read_line};
use crate::numbers::Lengths;
use crate::step::{Remark, Step};
use crate::tickets::Tickets;
use std::alloc::{AllocError, Global};
use texts::text::Lines;

/// A script as far as it is read: its tables and steps, and the lines of the next load, each with byte 10 behind it.
#[derive(Drop)]
pub struct Script<'t> {
    pub lengths: Lengths,
    pub steps: Vec<Step<'t>>,
    shipped: Vec<u8>,
    own: Vec<u8>,
    tickets: Tickets,
}

// Adds a line to a text, with byte 10 behind it.
fn add_line(text: &mut Vec<u8>, line: &[u8]) -> Result<(), AllocError>
    ensures { OnOk result (text.new.items ≡ with_line text.old.items line.now) }
{
    text.extend_from_slice(line)?;
    text.push(b'\n')?;
    Ok(())
}

// Takes a text out, without its last byte, and leaves an empty one.
fn take_text(heap: Global, text: &mut Vec<u8>) -> Vec<u8>
    ensures value { result.items ≡ text_of text.old.items }
    ensures after { text.new.items ≡ [] }
{
    let mut taken = std::mem::replace(text, Vec::new(heap));
    let _ = taken.pop();
    taken
}

impl<'t> Script<'t> {
    // A script of no lines.
    fn new(heap: Global) -> Script<'t>
        ensures { reading_of result ≡ begun }
    {
        Script {
            lengths: Lengths {
                types: 1_024,
                links: 8_192,
                pool: 65_536,
                index: 1_048_576,
            },
            steps: Vec::new(heap),
            shipped: Vec::new(heap),
            own: Vec::new(heap),
            tickets: Tickets {
                held: None,
                opened: 0,
            },
        }
    }

    fn add_step(&mut self, step: Step<'t>) -> Result<(), AllocError>
        ensures { OnOk result (reading_of self.new ≡ with_step (reading_of self.old) (doing step.entry)) }
    {
        self.steps.push(step)?;
        Ok(())
    }

    fn add_tables(&mut self, lengths: Option<Lengths>, first: bool) -> Result<(), AllocError>
        ensures { OnOk result (reading_of self.new ≡ with_tables first (reading_of self.old) lengths) }
    {
        match lengths {
            Some(lengths) if first => {
                self.lengths = lengths;
                Ok(())
            }
            _ => self.add_step(Step::Remark(Remark::Tables)),
        }
    }

    fn add_load(&mut self, heap: Global) -> Result<(), AllocError>
        ensures { OnOk result (reading_of self.new ≡ with_load (reading_of self.old)) }
    {
        let shipped = take_text(heap, &mut self.shipped);
        let own = take_text(heap, &mut self.own);
        self.add_step(Step::Load { shipped, own })
    }

    fn add_open(&mut self) -> Result<(), AllocError>
        ensures { OnOk result (reading_of self.new ≡ with_open (reading_of self.old)) }
    {
        self.tickets.open();
        self.add_step(Step::Open)
    }

    // Adds a line. Whether it is the first of the script goes with it: only there the tables may be given.
    fn add(&mut self, heap: Global, line: Line<'t>, first: bool) -> Result<(), AllocError>
        ensures { OnOk result (reading_of self.new ≡ with_said first (reading_of self.old) (said_by line.entry)) }
    {
        match line {
            Line::Tables(lengths) => self.add_tables(lengths, first),
            Line::Shipped(text) => add_line(&mut self.shipped, text),
            Line::Own(text) => add_line(&mut self.own, text),
            Line::Load => self.add_load(heap),
            Line::Open => self.add_open(),
            Line::Keep => match self.tickets.spend() {
                Some(ticket) => self.add_step(Step::Keep(ticket)),
                None => self.add_step(Step::Remark(Remark::Keep)),
            },
            Line::Withdraw => match self.tickets.spend() {
                Some(ticket) => self.add_step(Step::Withdraw(ticket)),
                None => self.add_step(Step::Remark(Remark::Withdraw)),
            },
            Line::Settle(method) => {
                let types = self.lengths.types;
                self.add_step(Step::Settle { method, types })
            }
            Line::Ask { first, second } => self.add_step(Step::Ask { first, second }),
            Line::Unknown(word) => self.add_step(Step::Remark(Remark::Unknown(word))),
        }
    }

    // Adds what a line's bytes say; an empty line is passed over.
    fn add_bytes(&mut self, heap: Global, line: &'t [u8], first: bool) -> Result<(), AllocError>
        ensures { OnOk result (reading_of self.new ≡ with_bytes first (reading_of self.old) line.entry.now) }
    {
        if line.is_empty() {
            return Ok(());
        }
        self.add(heap, read_line(line), first)
    }
}

/// Reads all lines of a script.
pub fn read_script<'t>(heap: Global, input: &'t [u8]) -> Result<Script<'t>, AllocError>
    ensures { IfOk result (λ s. reading_of s ≡ script_of input.now) }
{
    let mut script = Script::new(heap);
    let mut lines = Lines::of(input);
    if let Some(line) = lines.next() {
        script.add_bytes(heap, line, true)?;
    }
    for line in lines {
        script.add_bytes(heap, line, false)?;
    }
    Ok(script)
}
