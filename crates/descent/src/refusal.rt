// Why a call is refused, with the data that the refusal returns.
ghost use Rattle.std.specs.Prelude.{◌≡◌};
ghost use Rattle.descent.specs.Refusals.{report_of};

use std::fmt;

/// The most types that a gate stands over.
pub const MOST_LEVELS: u16 = 1024;

/// Why a call was refused.
#[derive(Clone, Copy, Debug, PartialEq, Eq)]
pub enum Refusal {
    /// A number that was asked about is not below the number of types.
    NotBelow { number: u16, types: u16 },
    /// A mark table has fewer places than there are types.
    ShortMarks { places: usize, types: u16 },
    /// A link has an end that is not below the number of types.
    StrayLink { end: u16, types: u16 },
    /// There are more types than a gate stands over.
    ManyTypes { types: u16 },
    /// There is not a level for each type.
    ShortLevels { levels: usize, types: u16 },
    /// There is not a flag place for each link.
    ShortFlags { places: usize, links: usize },
}

/// The number of a refusal, and its values: what was found, and what it was held against.
#[derive(Clone, Copy, Debug)]
pub struct Report {
    pub number: u8,
    pub values: [usize; 2],
}

/// A refusal to make something of what was given, which comes back as it was.
#[derive(Drop)]
pub struct Unmade<T> {
    pub refusal: Refusal,
    pub given: T,
}

impl Refusal {
    /// The number of this refusal, and the values that it returns.
    pub fn report(&self) -> Report
        ensures { result ≡ report_of self.now }
    {
        match *self {
            Refusal::NotBelow { number, types } => Report {
                number: 16,
                values: [number as usize, types as usize],
            },
            Refusal::ShortMarks { places, types } => Report {
                number: 17,
                values: [places, types as usize],
            },
            Refusal::StrayLink { end, types } => Report {
                number: 17,
                values: [end as usize, types as usize],
            },
            Refusal::ManyTypes { types } => Report {
                number: 17,
                values: [types as usize, MOST_LEVELS as usize],
            },
            Refusal::ShortLevels { levels, types } => Report {
                number: 17,
                values: [levels, types as usize],
            },
            Refusal::ShortFlags { places, links } => Report {
                number: 18,
                values: [places, links],
            },
        }
    }
}

impl fmt::Display for Refusal {
    fn fmt<W: fmt::Write>(&self, f: &mut fmt::Formatter<W>) -> fmt::Result {
        write!(f, "refusal {}: ", self.report().number)?;
        match *self {
            Refusal::NotBelow { number, types } => write!(
                f,
                "{number} is not below the number of types, {types}"
            ),
            Refusal::ShortMarks { places, types } => write!(
                f,
                "{places} marks are too few for {types} types"
            ),
            Refusal::StrayLink { end, types } => write!(
                f,
                "a link's end, {end}, is not below the number of types, {types}"
            ),
            Refusal::ManyTypes { types } => write!(
                f,
                "{types} types are more than a gate stands over, {MOST_LEVELS}"
            ),
            Refusal::ShortLevels { levels, types } => write!(
                f,
                "{levels} levels are too few for {types} types"
            ),
            Refusal::ShortFlags { places, links } => write!(
                f,
                "{places} flag places are too few for {links} links"
            ),
        }
    }
}
