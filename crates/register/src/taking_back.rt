// Taking back what was entered last.
ghost use Rattle.std.specs.Prelude.{◌≡◌, ◌≤◌, length, take};
ghost use Rattle.descent.specs.Links.{Within};
ghost use Rattle.register.specs.Contents.{contents_of, back_answer, after_back, changed, first_of, with_chains, Answers};

use crate::register::Register;
use hierarchy::refusal::Refusal as NumberRefusal;

impl Register {
    /// Takes back all but the first types and links, and sets the places that they give up to 0. The register is then not settled.
    pub fn take_back(&mut self, types: u16, links: usize) -> Result<(), NumberRefusal>
        ensures answer { result ≡ back_answer (contents_of self.old) types links }
        ensures after { contents_of self.new ≡ after_back (contents_of self.old) types links result }
    {
        self.numbered.take_back(types, links)?;
        self.names.take_back(types).unwrap();
        Ok(())
    }

    // Takes back what came in since there were so many types and links, and is settled as it was then.
    pub(crate) fn undo(&mut self, types: u16, links: usize, chains: Option<u16>)
        requires types { types ≤ length (contents_of self.old).entries.names }
        requires links { links ≤ length (contents_of self.old).entries.links }
        requires within { Within (take links (contents_of self.old).entries.links) types }
        requires answering { ∥ Answers chains (changed (contents_of self.old) (first_of types links (contents_of self.old).entries)) ∥₁ }
        ensures { contents_of self.new ≡ with_chains (changed (contents_of self.old) (first_of types links (contents_of self.old).entries)) chains }
    {
        self.take_back(types, links).unwrap();
        self.numbered.resettle(chains)
    }
}
