// What is refused of a pair of texts, and where.
ghost use Rattle.std.specs.Prelude.{◌≡◌, Some, IfOk};
ghost use Rattle.texts.specs.Refusals.{text_number, place_of, report_of, report_text, placeless, refused_line};

use crate::text::MAX_TEXT;
use grammar::fault::Rule;
use std::alloc::{AllocError, Global};
use std::fmt;

/// One of the two texts.
#[derive(Clone, Copy, Debug, PartialEq, Eq)]
pub enum Source {
    Shipped,
    Own,
}

/// A place in one of the two texts. Lines and columns count from 1, in each text; a 0 stands for none.
// No `Option`: a refusal is printed with its line and column, and there a 0 stands for none.
#[derive(Clone, Copy, Debug, PartialEq, Eq)]
pub struct Place {
    pub source: Source,
    pub line: usize,
    pub column: usize,
}

/// Why a pair of texts is refused.
#[derive(Clone, Copy, Debug, PartialEq, Eq)]
pub enum Refusal {
    /// A text has too many bytes.
    TooLong(Source),
    /// A line breaks a rule.
    Unlawful(Rule, Place),
}

/// A refusal by its numbers: its own, the text (1 shipped, 2 own), the line and the column. As printed, a 0 stands for none.
#[derive(Clone, Copy, Debug, Default, PartialEq, Eq)]
pub struct Report {
    pub number: u8,
    pub text: u8,
    pub line: usize,
    pub column: usize,
}

impl Source {
    /// 1 for the shipped text, 2 for the own one.
    // A method and no `From`: its name says that the number is that of a printed refusal.
    pub fn number(self) -> u8
        ensures { result ≡ text_number self }
    {
        match self {
            Source::Shipped => 1,
            Source::Own => 2,
        }
    }
}

impl Refusal {
    /// The place that a refusal points to.
    pub fn place(&self) -> Place
        ensures { result ≡ place_of self.now }
    {
        match self {
            Refusal::TooLong(source) => Place {
                source: *source,
                line: 0,
                column: 0,
            },
            Refusal::Unlawful(_, place) => *place,
        }
    }

    /// The numbers of a refusal.
    pub fn report(&self) -> Report
        ensures { result ≡ report_of self.now }
    {
        let number = match self {
            Refusal::TooLong(_) => 1,
            Refusal::Unlawful(rule, _) => rule.number(),
        };
        let Place {
            source,
            line,
            column,
        } = self.place();
        Report {
            number,
            text: source.number(),
            line,
            column,
        }
    }
}

impl Report {
    /// The report of a refusal that points to no place: the printed format has 0 for none.
    pub fn without_place(number: u8) -> Report
        ensures { result ≡ placeless number }
    {
        Report {
            number,
            ..Report::default()
        }
    }

    /// `refused N T L C` and byte 10.
    pub fn to_line(self, heap: Global) -> Result<Vec<u8>, AllocError>
        ensures { IfOk result (λ v. v.items ≡ refused_line self) }
    {
        Ok(format!(in heap; "refused {self}\n")?.into_bytes())
    }
}

impl fmt::Display for Report {
    ghost output = { λ x. Some (report_text x) };

    fn fmt<W: fmt::Write>(&self, f: &mut fmt::Formatter<W>) -> fmt::Result {
        let Report {
            number,
            text,
            line,
            column,
        } = *self;
        write!(f, "{number} {text} {line} {column}")
    }
}

impl fmt::Display for Source {
    fn fmt<W: fmt::Write>(&self, f: &mut fmt::Formatter<W>) -> fmt::Result {
        f.write_str(match self {
            Source::Shipped => "shipped text",
            Source::Own => "own text",
        })
    }
}

impl fmt::Display for Refusal {
    fn fmt<W: fmt::Write>(&self, f: &mut fmt::Formatter<W>) -> fmt::Result {
        match self {
            Refusal::TooLong(source) => write!(f, "{source}: more than {MAX_TEXT} bytes"),
            Refusal::Unlawful(rule, place) => {
                let Place {
                    source,
                    line,
                    column,
                } = *place;
                write!(f, "{source}, line {line}, column {column}: {rule}")
            }
        }
    }
}

#[cfg(test)]
mod tests {
    use super::Report;

    #[test]
    fn a_report_is_printed_as_a_line(rt: HostRuntime) {
        let told = match Report::without_place(10).to_line(rt.alloc()) {
            Ok(line) => line.as_slice() == b"refused 10 0 0 0\n".as_slice(),
            Err(_) => false,
        };
        assert!(rt; told);
    }
}
