// Trials and their tickets.
ghost use Rattle.std.specs.Prelude.{◌≡◌};

/// The ticket of a trial: the book's number, and the trial's, counted from 1. Only a book's `open` makes one, and only `keep`
/// and `withdraw` take one: it cannot be copied, and one that goes out of use unspent is an error.
pub struct Ticket {
    pub(crate) book: u32,
    pub(crate) trial: u32,
}

/// What was entered when a trial began: so many types and links.
#[derive(Clone, Copy, Debug, PartialEq, Eq)]
pub struct Mark {
    pub(crate) types: u16,
    pub(crate) links: usize,
}

/// The number of the refusal of an open.
pub const UNOPENED: u8 = 14;

/// The number of the refusal of a ticket that is not the open trial's.
pub const NOT_OPEN: u8 = 15;

/// Why a trial is not opened.
#[derive(Clone, Copy, Debug, PartialEq, Eq)]
pub enum Unopened {
    /// A trial is open.
    TrialOpen,
    /// As many trials as can be counted were opened.
    NoMoreTrials,
}

/// The ticket's numbers are not those of the book's open trial; the ticket comes back.
pub struct NotOpen {
    pub ticket: Ticket,
}

impl Ticket {
    /// The number of the book that handed the ticket out.
    pub fn book(&self) -> u32
        ensures { result ≡ self.now.book }
    {
        self.book
    }

    /// The number of the trial.
    pub fn trial(&self) -> u32
        ensures { result ≡ self.now.trial }
    {
        self.trial
    }
}

impl Unopened {
    /// The number of the refusal.
    pub fn number(&self) -> u8
        ensures { result ≡ 14 }
    {
        UNOPENED
    }
}

impl NotOpen {
    /// The number of the refusal.
    pub fn number(&self) -> u8
        ensures { result ≡ 15 }
    {
        NOT_OPEN
    }
}
