// The words of a line: what stands before its first space, and what after.
ghost use Rattle.std.specs.Prelude.{◌≡◌};
ghost use Rattle.std.specs.Option.{option_map};
ghost use Rattle.script.specs.Words.{word as word_of, rest as rest_of, is_name, names_in, both_now};

use texts::splitting::split_at_byte;

/// The first word of a line, and what stands after the space that ends it.
pub fn split_word(line: &[u8]) -> (&[u8], Option<&[u8]>)
    ensures word { result.0.now ≡ word_of line.now }
    ensures rest { option_map (λ x. x.now) result.1 ≡ rest_of line.now }
{
    split_at_byte(line, b' ')
}

// Whether these are one or more bytes without a space.
fn is_name(bytes: &[u8]) -> bool
    ensures { result ≡ is_name bytes.now }
{
    !bytes.is_empty() && !bytes.contains(&b' ')
}

/// The two names of a question, with one space between them.
pub fn read_names(text: &[u8]) -> Option<(&[u8], &[u8])>
    ensures { option_map both_now result ≡ names_in text.now }
{
    let (first, rest) = split_word(text);
    let second = rest?;
    if is_name(first) && is_name(second) {
        Some((first, second))
    } else {
        None
    }
}
