// Entering types and links, and taking them back.
ghost use Rattle.std.specs.Prelude.{◌≡◌};
ghost use Rattle.descent.specs.Answers.{Tells};
ghost use Rattle.descent.specs.Links.{Linked};
ghost use Rattle.hierarchy.specs.Entering.{held_of, links_in, type_answer, with_type, link_answer, with_link, back_answer, with_back};

use crate::entered::{Entered, MOST_LINKS, MOST_TYPES};
use crate::refusal::Refusal;
use descent::link::Link;
use descent::links::stray_end;

/// What became of a link: it was entered, or was there before.
#[derive(Clone, Copy, Debug, PartialEq, Eq)]
pub enum Entry {
    New,
    Known,
}

// Whether the link is one of these. By `any`, which stops where it finds it; `contains` tests links in groups.
fn is_known(links: &[Link], sought: Link) -> bool
    ensures { Tells result (Linked links.now sought.from sought.to) }
{
    links.iter().any(|link| *link == sought)
}

impl Entered {
    /// The links that were entered.
    pub(crate) fn links(&self) -> &[Link]
        ensures { result.now ≡ links_in (held_of self.now) }
    {
        &self.links[..self.count]
    }

    /// Enters one more type, and answers its number.
    pub fn enter_type(&mut self) -> Result<u16, Refusal>
        ensures answer { result ≡ type_answer (held_of self.old) }
        ensures after { held_of self.new ≡ with_type (held_of self.old) result }
    {
        let number = self.types;
        if number as usize >= self.room || number >= MOST_TYPES {
            return Err(Refusal::NoTypePlace);
        }
        self.types = number + 1;
        Ok(number)
    }

    /// Enters a link between two types, unless it is known.
    pub fn enter_link(&mut self, from: u16, to: u16) -> Result<Entry, Refusal>
        ensures answer { result ≡ link_answer (held_of self.old) from to }
        ensures after { held_of self.new ≡ with_link (held_of self.old) from to result }
    {
        let types = self.types;
        let link = Link { from, to };
        if let Some(number) = stray_end(&[link], types) {
            return Err(Refusal::NotBelow { number, types });
        }
        if is_known(self.links(), link) {
            return Ok(Entry::Known);
        }
        let count = self.count;
        if count >= self.links.len() || count >= MOST_LINKS {
            return Err(Refusal::NoLinkPlace);
        }
        self.links[count] = link;
        self.count = count + 1;
        Ok(Entry::New)
    }

    /// Takes back all but the first types and links, and sets the places that they give up to 0.
    pub fn take_back(&mut self, types: u16, links: usize) -> Result<(), Refusal>
        ensures answer { result ≡ back_answer (held_of self.old) types links }
        ensures after { held_of self.new ≡ with_back (held_of self.old) types links result }
    {
        if types > self.types || links > self.count {
            return Err(Refusal::NotEntered);
        }
        if let Some(number) = stray_end(&self.links[..links], types) {
            return Err(Refusal::NotBelow { number, types });
        }
        self.links[links..].fill(Link { from: 0, to: 0 });
        self.types = types;
        self.count = links;
        Ok(())
    }
}
