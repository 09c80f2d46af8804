// The interface through which anybody asks whether a type descends from another.
ghost use Rattle.std.specs.Prelude.{◌≡◌, ℕ, ◌<◌};
ghost use Rattle.descent.specs.Answers.{Laws, Keeps, Answers, Tells};
ghost use Rattle.descent.specs.Refusals.{Refuses, question_refusal};

use crate::refusal::Refusal;

/// Answers whether one type is related to another. Its meaning is a number of types and a relation on the
/// numbers below it, which is reflexive and transitive by law.
pub trait Answerer {
    /// The number of types.
    ghost count: { Self → ℕ };

    /// The relation.
    ghost relates: { Self → ℕ → ℕ → Type 0 };

    /// The relation is reflexive below the count, and transitive.
    ghost laws: { Laws count relates };

    /// The number of types.
    fn types(&self) -> u16
        ensures { result ≡ count self.now };

    /// Whether `a` is related to `b`; refused where one of them is not below the number of types.
    fn related(&mut self, a: u16, b: u16) -> Result<bool, Refusal>
        ensures kept { Keeps count relates self.old self.new }
        ensures answer { Answers (count self.old) (relates self.old) a b result };
}

/// Refuses a question where one of its numbers is not below the number of types: the first such number.
pub fn check_question(types: u16, a: u16, b: u16) -> Result<(), Refusal>
    ensures { Refuses (question_refusal types a b) result }
{
    if a >= types {
        return Err(Refusal::NotBelow { number: a, types });
    }
    if b >= types {
        return Err(Refusal::NotBelow { number: b, types });
    }
    Ok(())
}

/// Asks a question about two numbers below the number of types, which is not refused.
pub fn ask<A: Answerer>(answerer: &mut A, a: u16, b: u16) -> bool
    requires first { a < A.count answerer.old }
    requires second { b < A.count answerer.old }
    ensures kept { Keeps A.count A.relates answerer.old answerer.new }
    ensures answer { Tells result (A.relates answerer.old a b) }
{
    answerer.related(a, b).unwrap()
}
