// What a line of a script says.
ghost use Rattle.std.specs.Prelude.{◌≡◌};
ghost use Rattle.script.specs.Lines.{keyword_of, said_by, alone_said, rest_said, said};

use crate::method::Method;
use crate::numbers::{Lengths, read_lengths};
use crate::words::{read_names, split_word};

/// The words with which a line may begin.
#[derive(Clone, Copy)]
pub enum Keyword {
    Tables,
    Shipped,
    Own,
    Load,
    Open,
    Keep,
    Withdraw,
    Settle,
    Ask,
}

/// A line of a script, understood.
#[derive(Clone, Copy)]
pub enum Line<'t> {
    Tables(Option<Lengths>),
    Shipped(&'t [u8]),
    Own(&'t [u8]),
    Load,
    Open,
    Keep,
    Withdraw,
    Settle(Method),
    Ask { first: &'t [u8], second: &'t [u8] },
    Unknown(&'t [u8]),
}

// The keyword that a word is. So each word stands once, for the lines where something follows it and for the others.
fn keyword_of(word: &[u8]) -> Option<Keyword>
    ensures { result ≡ keyword_of word.now }
{
    match word {
        b"tables" => Some(Keyword::Tables),
        b"shipped" => Some(Keyword::Shipped),
        b"own" => Some(Keyword::Own),
        b"load" => Some(Keyword::Load),
        b"open" => Some(Keyword::Open),
        b"keep" => Some(Keyword::Keep),
        b"withdraw" => Some(Keyword::Withdraw),
        b"settle" => Some(Keyword::Settle),
        b"ask" => Some(Keyword::Ask),
        _ => None,
    }
}

// What a word says that stands alone on its line.
fn read_alone(word: &[u8]) -> Line
    ensures { said_by result ≡ alone_said (keyword_of word.now) word.now }
{
    match keyword_of(word) {
        Some(Keyword::Tables) => Line::Tables(None),
        Some(Keyword::Shipped) => Line::Shipped(&[]),
        Some(Keyword::Own) => Line::Own(&[]),
        Some(Keyword::Load) => Line::Load,
        Some(Keyword::Open) => Line::Open,
        Some(Keyword::Keep) => Line::Keep,
        Some(Keyword::Withdraw) => Line::Withdraw,
        Some(Keyword::Settle) => Line::Settle(Method::Joined),
        Some(Keyword::Ask) | None => Line::Unknown(word),
    }
}

// What a word says with what stands after the space behind it.
fn read_with_rest<'t>(word: &'t [u8], rest: &'t [u8]) -> Line<'t>
    ensures { said_by result ≡ rest_said (keyword_of word.now) word.now rest.now }
{
    match keyword_of(word) {
        Some(Keyword::Tables) => Line::Tables(read_lengths(rest)),
        Some(Keyword::Shipped) => Line::Shipped(rest),
        Some(Keyword::Own) => Line::Own(rest),
        Some(Keyword::Settle) if rest == b"chains".as_slice() => Line::Settle(Method::Chains),
        Some(Keyword::Ask) => match read_names(rest) {
            Some((first, second)) => Line::Ask { first, second },
            None => Line::Unknown(word),
        },
        _ => Line::Unknown(word),
    }
}

/// Reads a line that is not empty.
pub fn read_line(line: &[u8]) -> Line
    ensures { said_by result ≡ said line.now }
{
    let (word, rest) = split_word(line);
    match rest {
        Some(rest) => read_with_rest(word, rest),
        None => read_alone(word),
    }
}
