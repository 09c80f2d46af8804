// Why a call by names is refused, with the data that the refusal returns.
ghost use Rattle.std.specs.Prelude.{◌≡◌};
ghost use Rattle.texts.specs.Refusals.{text_number};
ghost use Rattle.register.specs.Refusals.{place_of, report_of, which_number, ask_report_of};
ghost use Rattle.register.specs.declared.refusal.Refusal.TheVariants.{Text};
ghost use Rattle.register.specs.declared.refusal.Unloaded.TheVariants.{Refused};
ghost use Rattle.register.specs.declared.refusal.NotAsked.TheVariants as not_asked;

use hierarchy::refusal::NotSettled;
use std::fmt;
use texts::refusal::{Place, Refusal as TextRefusal, Report as PlaceReport};

/// Why a load is refused.
#[derive(Clone, Copy, Debug, PartialEq, Eq)]
pub enum Refusal {
    /// A text is too long, or a line is not lawful.
    Text(TextRefusal),
    /// There is no place for one more type.
    NoTypePlace(Place),
    /// There is no place for the bytes of its name.
    NoBytePlace(Place),
    /// There is no place for one more link.
    NoLinkPlace(Place),
}

/// Why nothing was loaded.
// As `Unread` of grammar, but each has its own refusal and its own conversions, which `?` uses.
#[derive(Clone, Copy, Debug, PartialEq, Eq)]
pub enum Unloaded {
    Refused(Refusal),
    NoMemory,
}

/// One of the two names of a question.
#[derive(Clone, Copy, Debug, PartialEq, Eq)]
pub enum Which {
    First,
    Second,
}

/// Why a question about two names is refused.
#[derive(Clone, Copy, Debug, PartialEq, Eq)]
pub enum NotAsked {
    /// The book is not settled.
    NotSettled,
    /// A name is not a type of the book: which of the two is the first such one.
    Unknown { which: Which },
}

/// A refused question by its number, and which name is unknown, where one is.
#[derive(Clone, Copy, Debug, PartialEq, Eq)]
pub struct Report {
    pub number: u8,
    pub which: Option<Which>,
}

// The numbers of a refusal that points to a place.
fn report_at(number: u8, at: Place) -> PlaceReport
    ensures { result ≡ record { number = number; text = text_number at.source; line = at.line; column = at.column } }
{
    PlaceReport {
        number,
        text: at.source.number(),
        line: at.line,
        column: at.column,
    }
}

impl From<TextRefusal> for Unloaded {
    ghost from_gives = { λ refusal r. r ≡ Refused (Text refusal) };

    fn from(refusal: TextRefusal) -> Unloaded {
        Unloaded::Refused(Refusal::Text(refusal))
    }
}

impl From<Refusal> for Unloaded {
    ghost from_gives = { λ refusal r. r ≡ Refused refusal };

    fn from(refusal: Refusal) -> Unloaded {
        Unloaded::Refused(refusal)
    }
}

impl From<NotSettled> for NotAsked {
    ghost from_gives = { λ refusal r. r ≡ not_asked.NotSettled };

    fn from(_refusal: NotSettled) -> NotAsked {
        NotAsked::NotSettled
    }
}

impl Refusal {
    /// The place that a refusal points to.
    pub fn place(&self) -> Place
        ensures { result ≡ place_of self.now }
    {
        match *self {
            Refusal::Text(refusal) => refusal.place(),
            Refusal::NoTypePlace(at) | Refusal::NoBytePlace(at) | Refusal::NoLinkPlace(at) => at,
        }
    }

    /// The numbers of a refusal.
    pub fn report(&self) -> PlaceReport
        ensures { result ≡ report_of self.now }
    {
        match *self {
            Refusal::Text(refusal) => refusal.report(),
            Refusal::NoTypePlace(at) => report_at(6, at),
            Refusal::NoBytePlace(at) => report_at(7, at),
            Refusal::NoLinkPlace(at) => report_at(8, at),
        }
    }
}

impl Which {
    /// 1 for the first name, 2 for the second.
    // A method and no `From`: its name says that the number is that of a printed refusal.
    pub fn number(self) -> u8
        ensures { result ≡ which_number self }
    {
        match self {
            Which::First => 1,
            Which::Second => 2,
        }
    }
}

impl fmt::Display for Which {
    ghost use Rattle.std.specs.Prelude.{Some, decimal};

    ghost output = { λ which. Some (decimal (which_number which)) };

    fn fmt<W: fmt::Write>(&self, f: &mut fmt::Formatter<W>) -> fmt::Result {
        write!(f, "{}", self.number())
    }
}

impl NotAsked {
    /// The number of a refused question, and which name is unknown.
    pub fn report(&self) -> Report
        ensures { result ≡ ask_report_of self.now }
    {
        match *self {
            NotAsked::NotSettled => Report {
                number: 12,
                which: None,
            },
            NotAsked::Unknown { which } => Report {
                number: 13,
                which: Some(which),
            },
        }
    }
}
