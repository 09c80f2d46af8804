// A gate over the opposite of a gate over a walk: a question through the whole pile, and the marks that come back.
ghost use Rattle.std.specs.Prelude.{◌≡◌, min, length};
ghost use Rattle.descent.specs.Answers.{Answers};
ghost use Rattle.descent.specs.Layers.{Gated, Swapped};
ghost use Rattle.descent.specs.Links.{Descends};
ghost use Rattle.walk.specs.Marks.{Clear};

use crate::walk::Walk;
use descent::answerer::Answerer;
use descent::gate::Gate;
use descent::opposite::Opposite;
use descent::refusal::Refusal;

/// A gate over the opposite of a gate over a walk.
pub type Pile<'h, 'l, 'w> = Gate<'h, Opposite<Gate<'l, Walk<'w>>>>;

/// Takes a pile apart: the walk's marks, all 0.
pub fn marks_of_pile<'h, 'l, 'w>(pile: Pile<'h, 'l, 'w>) -> Vec<u16>
    ensures clear { Clear result.items }
    ensures table { result ≡ pile.entry.below.below.below.marks }
{
    pile.into_below().into_below().into_below().into_marks()
}

/// Asks a pile one last question and takes it apart: the answer, and the walk's marks, all 0. The answer is yes
/// where `b` descends from `a` by the links, the low levels do not fall from `b` to `a`, and the high ones not from `a` to `b`.
pub fn ask_and_take_apart<'h, 'l, 'w>(
    mut pile: Pile<'h, 'l, 'w>,
    a: u16,
    b: u16,
) -> (Result<bool, Refusal>, Vec<u16>)
    ensures answer { let low = pile.entry.below.below in Answers (min (min low.below.types (length low.levels.now)) (length pile.entry.levels.now)) (Gated pile.entry.levels.now (Swapped (Gated low.levels.now (Descends low.below.links.now)))) a b result.0 }
    ensures clear { Clear result.1.items }
{
    let answer = pile.related(a, b);
    (answer, marks_of_pile(pile))
}
