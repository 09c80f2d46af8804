// The nearest common base of two types of a settled register, by their names.
#![tactic(auto)]

ghost use Rattle.std.specs.Prelude.{◌≡◌, ℕ, ◌<◌, ◌≤◌, true, length, is_some, ◌≢◌, slice_index};
ghost use Rattle.descent.specs.Layers.{Gated};
ghost use Rattle.descent.specs.Nearests.{Nearest};
ghost use Rattle.register.specs.Contents.{contents_of};
ghost use Rattle.nearest.specs.ByNames.{nearest_of, nearest_answer, bytes_in, AnswersAreNearest};

use descent::answerer::Answerer;
use descent::gate::Gate;
use descent::nearest::nearest;
use descent::refusal::MOST_LEVELS;
use register::refusal::NotAsked;
use register::register::Register;

// Writes the rank of each type: the type of rank r stands at place r of the order.
fn fill_ranks(order: &[u16], types: u16, ranks: &mut [u16])
    requires room { types ≤ length order.now }
    requires below { (r : ℕ) → r < types → slice_index order.now r < length ranks.old }
    requires once { (r s : ℕ) → r < s → s < types → slice_index order.now r ≢ slice_index order.now s }
    ensures { (r : ℕ) → r < types → slice_index ranks.new (slice_index order.now r) ≡ r }
{
    for (rank, of) in order[..types as usize].iter().enumerate() {
        ranks[*of as usize] = rank as u16;
    }
}

// The nearest common base of two types of an answerer, through a gate of levels.
fn nearest_gated<A: Answerer + Drop>(answerer: A, levels: &[u16], a: u16, b: u16) -> Option<u16>
    requires few { A.Answerer.count answerer ≤ 1024 }
    requires levels { A.Answerer.count answerer ≤ length levels.now }
    requires first { a < A.Answerer.count answerer }
    requires second { b < A.Answerer.count answerer }
    ensures { Nearest (A.Answerer.count answerer) (Gated levels.now (A.Answerer.relates answerer)) a b result }
{
    let mut gate = Gate::new(answerer, levels).unwrap();
    nearest(&mut gate, a, b).unwrap()
}

// The nearest common base of two types of a settled register, through a gate of their ranks.
fn nearest_number(register: &Register, a: u16, b: u16) -> Option<u16>
    requires settled { is_some (contents_of register.now).settled ≡ true }
    requires first { a < length (contents_of register.now).entries.names }
    requires second { b < length (contents_of register.now).entries.names }
    ensures { result ≡ nearest_of (contents_of register.now).entries a b }
{
    // On the stack, with a place for each type that a gate stands over: a question allocates nothing.
    let mut ranks = [0; MOST_LEVELS as usize];
    let book = register.numbered();
    fill_ranks(book.order(), book.types(), &mut ranks);
    nearest_gated(book.chain_index(), &ranks, a, b)
}

/// The name of the nearest common base of two types, by their names; none where they have no common base.
pub fn nearest_by_names<'r>(
    register: &'r Register,
    first: &[u8],
    second: &[u8],
) -> Result<Option<&'r [u8]>, NotAsked>
    ensures { bytes_in (λ x. x.now) result ≡ nearest_answer (contents_of register.now) first.now second.now }
{
    let (a, b) = register.numbers(first, second)?;
    let Some(number) = nearest_number(register, a, b) else {
        return Ok(None);
    };
    Ok(register.names().name(number))
}

/// The name that is answered is that of the nearest common base by descent.
pub fn the_answer_is_the_nearest_common_base_by_descent()
    ensures { AnswersAreNearest }
{}
