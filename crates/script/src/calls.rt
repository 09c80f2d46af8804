// The calls that the steps of a script make.
ghost use Rattle.std.specs.Prelude.{◌≡◌, [], map, IfOk, vec_len};
ghost use Rattle.std.specs.Option.{option_to_list};
ghost use Rattle.script.specs.Steps.{called_by, doing, calls_with, calls_in};

use crate::method::Method;
use crate::step::Step;
use declarations::call::Call;
use settling::settle::SCRATCH_PER_TYPE;
use std::alloc::{AllocError, Global};

// The call that a step makes.
fn call_of<'s>(step: &'s Step<'s>) -> Option<Call<'s, Method>>
    ensures { map called_by (option_to_list result) ≡ calls_with (doing step.now) [] }
{
    match step {
        Step::Load { shipped, own } => Some(Call::Load { shipped, own }),
        Step::Open => Some(Call::Open),
        Step::Keep(stub) => Some(Call::Keep(*stub)),
        Step::Withdraw(stub) => Some(Call::Withdraw(*stub)),
        Step::Settle { method, types } => Some(Call::Settle {
            decomposer: *method,
            table: *types as usize,
            scratch: SCRATCH_PER_TYPE * *types as usize,
        }),
        Step::Ask { first, second } => Some(Call::Ask { first, second }),
        Step::Remark(_) => None,
    }
}

/// The calls that the steps make.
pub fn calls_of<'s>(
    heap: Global,
    steps: &'s [Step<'s>],
) -> Result<Vec<Call<'s, Method>>, AllocError>
    ensures { IfOk result (λ v. map called_by v.items ≡ calls_in (map doing steps.now)) }
{
    let mut calls = Vec::new(heap);
    for step in steps {
        if let Some(call) = call_of(step) {
            calls.push(call)?;
        }
    }
    Ok(calls)
}
