// The answerer that searches, over a mark table of its own.
ghost use Rattle.std.specs.Prelude.{◌≡◌, ◌<◌, ◌≤◌, vec_len, MatchResult};
ghost use Rattle.descent.specs.Answers.{Keeps, Answers};
ghost use Rattle.descent.specs.Laws.{descent_laws};
ghost use Rattle.descent.specs.Links.{Descends, Within};
ghost use Rattle.descent.specs.Refusals.{RefusesToMake};
ghost use Rattle.walk.specs.Marks.{Clear};
ghost use Rattle.walk.specs.Making.{walk_refusal};

use crate::search::search;
use descent::answerer::{Answerer, check_question};
use descent::link::Link;
use descent::links::stray_end;
use descent::refusal::{Refusal, Unmade};

/// Searches a list of links. Its marks are all 0 between questions.
// How many types there are stands beside the marks: their table is the host's and may be longer.
#[derive(Drop)]
pub struct Walk<'l> {
    links: &'l [Link],
    marks: Vec<u16>,
    types: u16,
    ghost within: { Within links.now types },
    ghost room: { types ≤ vec_len marks },
    ghost unmarked: { Clear marks.items },
}

impl<'l> Walk<'l> {
    /// A walk over the links of so many types. It takes the mark table over and sets it to 0. Refused, with the
    /// table handed back as it was, where there are fewer marks than types, or a link's end is not below their number.
    pub fn new(
        links: &'l [Link],
        mut marks: Vec<u16>,
        types: u16,
    ) -> Result<Walk<'l>, Unmade<Vec<u16>>>
        ensures refusal { RefusesToMake (walk_refusal types (vec_len marks) links.now) result }
        ensures parts { MatchResult result (λ walk. (walk.links.now ≡ links.now) × (walk.types ≡ types) × (vec_len walk.marks ≡ vec_len marks)) (λ back. back.given ≡ marks) }
    {
        if marks.len() < types as usize {
            return Err(Unmade {
                refusal: Refusal::ShortMarks {
                    places: marks.len(),
                    types,
                },
                given: marks,
            });
        }
        if let Some(end) = stray_end(links, types) {
            return Err(Unmade {
                refusal: Refusal::StrayLink { end, types },
                given: marks,
            });
        }
        marks.fill(0);
        Ok(Walk {
            links,
            marks,
            types,
        })
    }

    /// Takes the walk apart, and hands back the mark table, with every mark 0.
    pub fn into_marks(self) -> Vec<u16>
        ensures clear { Clear result.items }
        ensures table { result ≡ self.entry.marks }
    {
        let Walk {
            links: _,
            marks,
            types: _,
        } = self;
        marks
    }
}

impl<'l> Answerer for Walk<'l> {
    ghost count = { λ s. s.types };

    ghost relates = { λ s. Descends s.links.now };

    ghost laws = { descent_laws (λ s. s.types) (λ s. s.links.now) };

    fn types(&self) -> u16 {
        self.types
    }

    fn related(&mut self, a: u16, b: u16) -> Result<bool, Refusal>
        ensures kept { Keeps (λ s. s.types) (λ s. Descends s.links.now) self.old self.new }
        ensures answer { Answers self.old.types (Descends self.old.links.now) a b result }
        ensures table { vec_len self.new.marks ≡ vec_len self.old.marks }
    {
        check_question(self.types, a, b)?;
        Ok(search(self.links, &mut self.marks, a, b))
    }
}
