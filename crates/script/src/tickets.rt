// The ticket that a script holds, told from its lines alone.
ghost use Rattle.std.specs.Prelude.{◌≡◌};
ghost use Rattle.script.specs.Tickets.{after_open, after_spend, spent};

use declarations::call::Stub;

/// The number of the book.
pub const BOOK: u32 = 0;

/// The trial whose ticket is held, and how many trials were opened.
#[derive(Clone, Copy)]
pub struct Tickets {
    pub held: Option<u32>,
    pub opened: u32,
}

impl Tickets {
    /// Opens a trial, unless one is open, and holds its ticket.
    pub fn open(&mut self)
        ensures { self.new ≡ after_open self.old }
    {
        if self.held.is_none() && self.opened < u32::MAX {
            let trial = self.opened + 1;
            self.opened = trial;
            self.held = Some(trial);
        }
    }

    /// The numbers of the ticket that is held, which is then spent.
    pub fn spend(&mut self) -> Option<Stub>
        ensures value { result ≡ spent self.old }
        ensures after { self.new ≡ after_spend self.old }
    {
        let trial = self.held.take()?;
        Some(Stub { book: BOOK, trial })
    }
}
