// The nearest common base of two types.
ghost use Rattle.std.specs.Prelude.{◌≡◌, ◌<◌, MatchBool};
ghost use Rattle.descent.specs.Answers.{Keeps, Tells};
ghost use Rattle.descent.specs.Nearests.{Common, Yields, Undercuts, FindsNearest};

use crate::answerer::{Answerer, ask, check_question};
use crate::refusal::Refusal;

// Each number that a question speaks of has its own bound in the contract: no two of the functions ask about the same ones.

// Whether both `a` and `b` are related to `c`.
fn is_common<A: Answerer>(answerer: &mut A, a: u16, b: u16, c: u16) -> bool
    requires first { a < A.count answerer.old }
    requires second { b < A.count answerer.old }
    requires base { c < A.count answerer.old }
    ensures kept { Keeps A.count A.relates answerer.old answerer.new }
    ensures answer { Tells result (Common (A.count answerer.old) (A.relates answerer.old) a b c) }
{
    ask(answerer, a, c) && ask(answerer, b, c)
}

// Whether `d` is a common base that is related to `c`, while `c` is not related to `d`.
fn undercuts<A: Answerer>(answerer: &mut A, a: u16, b: u16, c: u16, d: u16) -> bool
    requires first { a < A.count answerer.old }
    requires second { b < A.count answerer.old }
    requires base { c < A.count answerer.old }
    requires other { d < A.count answerer.old }
    ensures kept { Keeps A.count A.relates answerer.old answerer.new }
    ensures answer { MatchBool result (Undercuts (A.count answerer.old) (A.relates answerer.old) a b c d) (Yields (A.count answerer.old) (A.relates answerer.old) a b c d) }
{
    is_common(answerer, a, b, d) && ask(answerer, d, c) && !ask(answerer, c, d)
}

/// The lowest-numbered type to which both are related, and which is related to each such type that is related to it;
/// none where the two have no common base. Refused where one of them is not below the number of types.
pub fn nearest<A: Answerer>(answerer: &mut A, a: u16, b: u16) -> Result<Option<u16>, Refusal>
    ensures kept { Keeps A.count A.relates answerer.old answerer.new }
    ensures answer { FindsNearest (A.count answerer.old) (A.relates answerer.old) a b result }
{
    let types = answerer.types();
    check_question(types, a, b)?;
    'bases: for c in 0..types {
        if is_common(answerer, a, b, c) {
            for d in 0..types {
                if undercuts(answerer, a, b, c, d) {
                    continue 'bases;
                }
            }
            return Ok(Some(c));
        }
    }
    Ok(None)
}
