// Replaying a script: its calls are made on one book, and a line is printed for each.
ghost use Rattle.std.specs.Prelude.{◌≡◌, map, IfOk, vec_len};
ghost use Rattle.script.specs.Replaying.{sizes_of, Replayed};
ghost use Rattle.script.specs.Steps.{doing, shown_steps};

use crate::calls::calls_of;
use crate::method::Method;
use crate::numbers::Lengths;
use crate::reading::read_script;
use crate::shown::{show_answer, show_remark};
use crate::step::Step;
use crate::tickets::BOOK;
use declarations::call::{Answer, TableSizes};
use declarations::run::run;
use std::alloc::{AllocError, Global};
use walk::walk::Walk;

impl From<Lengths> for TableSizes {
    ghost from_gives = { λ lengths sizes. sizes ≡ sizes_of lengths };

    fn from(lengths: Lengths) -> TableSizes {
        TableSizes::of_counts(
            lengths.types as usize,
            lengths.links as usize,
            lengths.pool as usize,
            lengths.index as usize,
        )
    }
}

// The lines of the steps: each that makes a call has the next answer.
fn print_steps(heap: Global, steps: &[Step], answers: &[Answer]) -> Result<Vec<u8>, AllocError>
    ensures { IfOk result (λ v. v.items ≡ shown_steps (map doing steps.now) answers.now) }
{
    let mut printed = Vec::new(heap);
    let mut left = answers.iter();
    for step in steps {
        if let Step::Remark(remark) = step {
            printed.extend_from_slice(&show_remark(heap, *remark)?)?;
        } else if let Some(answer) = left.next() {
            printed.extend_from_slice(&show_answer(heap, *answer)?)?;
        }
    }
    Ok(printed)
}

/// What is printed for a script.
pub fn replayed(heap: Global, input: &[u8]) -> Result<Vec<u8>, AllocError>
    ensures { IfOk result (λ v. Replayed input.now v.items) }
{
    let script = read_script(heap, input)?;
    let sizes = TableSizes::from(script.lengths);
    let calls = calls_of(heap, &script.steps)?;
    let outcome = run::<Method, Walk>(heap, BOOK, sizes, &calls)?;
    print_steps(heap, &script.steps, &outcome.answers)
}
