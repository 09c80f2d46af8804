// The numbers of a script: the lengths of its tables.
ghost use Rattle.std.specs.Prelude.{◌≡◌};
ghost use Rattle.std.specs.Option.{option_map};
ghost use Rattle.script.specs.Numbers.{with_digit, number_of, number_in, rest_now, lengths_in};

use crate::words::split_word;

/// The lengths of tables.
#[derive(Clone, Copy)]
pub struct Lengths {
    pub types: u32,
    pub links: u32,
    pub pool: u32,
    pub index: u32,
}

// A number with one more digit behind it.
fn with_digit(value: u32, digit: u8) -> Option<u32>
    ensures { result ≡ with_digit value digit }
{
    if !digit.is_ascii_digit() {
        return None;
    }
    value.checked_mul(10)?.checked_add(u32::from(digit - b'0'))
}

// The number that is written in plain decimal digits. By hand: `parse` takes text alone, and also a `+` before the digits.
fn read_number(digits: &[u8]) -> Option<u32>
    ensures { result ≡ number_of digits.now }
{
    if digits.is_empty() {
        return None;
    }
    let mut value = 0;
    for digit in digits {
        value = with_digit(value, *digit)?;
    }
    Some(value)
}

// The number before the first space, and what stands after it.
fn next_number(text: &[u8]) -> Option<(u32, Option<&[u8]>)>
    ensures { option_map rest_now result ≡ number_in text.now }
{
    let (digits, rest) = split_word(text);
    let number = read_number(digits)?;
    Some((number, rest))
}

/// Four numbers with one space between them.
pub fn read_lengths(text: &[u8]) -> Option<Lengths>
    ensures { result ≡ lengths_in text.now }
{
    let (types, rest) = next_number(text)?;
    let (links, rest) = next_number(rest?)?;
    let (pool, rest) = next_number(rest?)?;
    let (index, rest) = next_number(rest?)?;
    if rest.is_some() {
        return None;
    }
    Some(Lengths {
        types,
        links,
        pool,
        index,
    })
}
