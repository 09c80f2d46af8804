// A text cut in two at a byte.
ghost use Rattle.std.specs.Prelude.{◌≡◌, position};
ghost use Rattle.std.specs.Option.{option_map};
ghost use Rattle.texts.specs.Splitting.{is_byte, before_byte, after_byte};

// Where the first byte of that value stands.
fn find_byte(text: &[u8], byte: u8) -> Option<usize>
    ensures { result ≡ position (is_byte byte) text.now }
{
    text.iter().position(|b| *b == byte)
}

/// What stands before the first byte of that value, and what after it; all of the text and none where there is no such byte.
pub fn split_at_byte(text: &[u8], byte: u8) -> (&[u8], Option<&[u8]>)
    ensures before { result.0.now ≡ before_byte byte text.now }
    ensures after { option_map (λ x. x.now) result.1 ≡ after_byte byte text.now }
{
    match find_byte(text, byte) {
        Some(end) => (&text[..end], Some(&text[end + 1..])),
        None => (text, None),
    }
}
