// A layer that counts the questions that pass through it.
ghost use Rattle.descent_cases.specs.Passing.{passed_laws};

use descent::answerer::Answerer;
use descent::refusal::Refusal;

#[derive(Drop)]
pub struct Asked<A> {
    pub below: A,
    pub questions: usize,
}

impl<A: Answerer> Answerer for Asked<A> {
    ghost count = { λ s. A.Answerer.count s.below };

    ghost relates = { λ s. A.Answerer.relates s.below };

    ghost laws = { passed_laws (λ s. s.below) A.Answerer.laws };

    fn types(&self) -> u16 {
        self.below.types()
    }

    fn related(&mut self, a: u16, b: u16) -> Result<bool, Refusal> {
        self.questions = self.questions.saturating_add(1);
        self.below.related(a, b)
    }
}
