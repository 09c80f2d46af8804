// What the program answers to an input, as bytes: the text of the settled register, or what is refused.
#![tactic(auto)]

ghost use Rattle.std.specs.Prelude.{◌≡◌, IfOk};
ghost use Rattle.printing.specs.Printed.{printed};
ghost use Rattle.register.specs.Contents.{contents_of};
ghost use Rattle.rows.specs.KeptEntries.{marked};
ghost use Rattle.program.specs.NewTables.{OverTables, NewRegister};
ghost use Rattle.program.specs.Program.{shown_report, placeless, shown_text, shown_entries, program_bytes};
ghost use Rattle.program.specs.Worked.{Worked};

use chains::chain_order::ChainOrder;
use chains::joining::Joining;
use printing::print;
use register::refusal::Unloaded;
use register::register::Register;
use register::tables::{TableSizes, Tables};
use std::alloc::{AllocError, Global};
use texts::refusal::Report;
pub use texts::text::MAX_INPUT;

// The places for types.
const TYPES: usize = 128;

// The places for links.
const LINKS: usize = 512;

// The places for the bytes of names.
const POOL: usize = 8_192;

// The entries of the index: a row for each type, with an entry for each chain.
const INDEX: usize = 16_384;

// The entries of working memory: four for each type.
const SCRATCH: usize = 512;

// The places of the output.
const OUTPUT: usize = 8_192;

// A refusal that points to no place: the printed format has 0 for none.
fn refused_without_place(heap: Global, number: u8) -> Result<Vec<u8>, AllocError>
    ensures { IfOk result (λ v. v.items ≡ shown_report (placeless number)) }
{
    Report::without_place(number).to_line(heap)
}

// A register with nothing entered over new tables.
fn new_register(heap: Global) -> Result<Register, AllocError>
    ensures { IfOk result (λ register. NewRegister (contents_of register)) }
{
    let sizes = TableSizes::of_counts(TYPES, LINKS, POOL, INDEX);
    let tables = Tables::with_sizes(heap, sizes)?;
    Ok(Register::new(0, tables))
}

// The text of a register's names and of the links that its kept table marks.
fn print_register(heap: Global, register: &Register) -> Result<Vec<u8>, AllocError>
    ensures { IfOk result (λ v. v.items ≡ shown_text (printed (contents_of register.now).entries.names (marked (contents_of register.now).written.kept (contents_of register.now).entries.links))) }
{
    let mut out = vec![in heap; 0u8; OUTPUT]?;
    let book = register.numbered();
    match print(register.names(), book.links(), book.kept(), &mut out) {
        Ok(length) => {
            out.truncate(length);
            Ok(out)
        }
        Err(short) => refused_without_place(heap, short.number()),
    }
}

// Settles a register by joining over chain order, and prints it.
fn settle_and_print(heap: Global, register: &mut Register) -> Result<Vec<u8>, AllocError>
    requires { OverTables (contents_of register.old) }
    ensures { IfOk result (λ v. v.items ≡ shown_entries (contents_of register.old).entries) }
{
    let mut table = vec![in heap; 0u16; TYPES]?;
    let mut scratch = vec![in heap; 0u16; SCRATCH]?;
    match register.settle(&Joining { inner: ChainOrder }, &mut table, &mut scratch) {
        Ok(_) => print_register(heap, register),
        Err(unsettled) => refused_without_place(heap, unsettled.report().number),
    }
}

/// What the program writes for an input: the text of the register that the input declares, or what is refused.
pub fn answer(heap: Global, input: &[u8]) -> Result<Vec<u8>, AllocError>
    ensures { IfOk result (λ v. v.items ≡ program_bytes input.now) }
{
    if input.len() > MAX_INPUT {
        return refused_without_place(heap, 1);
    }
    let mut register = new_register(heap)?;
    match register.load(heap, &[], input) {
        Ok(()) => settle_and_print(heap, &mut register),
        Err(Unloaded::Refused(refusal)) => refusal.report().to_line(heap),
        Err(Unloaded::NoMemory) => Err(AllocError),
    }
}

/// The worked inputs.
pub fn worked_inputs_are_answered_as_told()
    ensures { Worked }
{}
