// Printing what is settled: the names, and the kept links by name.
#![tactic(auto)]

ghost use Rattle.std.specs.Prelude.{◌≡◌, length};
ghost use Rattle.register.specs.Contents.{contents_of};
ghost use Rattle.printout.specs.Printouts.{printout_answer, output_after};

use crate::refusal::Unprinted;
use printing::print;
use register::register::Register;

pub mod refusal;

/// Prints a settled register into an output, and answers how many bytes that are: every name on a line, in the order of the
/// numbers, then a line for each type with kept bases. A refusal writes nothing.
pub fn print_settled(register: &Register, out: &mut [u8]) -> Result<usize, Unprinted>
    ensures answer { result ≡ printout_answer (contents_of register.now) (length out.old) }
    ensures output { out.new ≡ output_after (contents_of register.now) out.old }
{
    let numbered = register.numbered();
    numbered
        .settled_chains()
        .map_err(|_| Unprinted::NotSettled)?;
    print(register.names(), numbered.links(), numbered.kept(), out).map_err(Unprinted::ShortOutput)
}
