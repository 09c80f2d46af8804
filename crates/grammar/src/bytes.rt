// Bytes by the part that they may play in a line.
ghost use Rattle.std.specs.Prelude.{◌≡◌};
ghost use Rattle.grammar.specs.Bytes.{begins, continues, printable};

pub(crate) fn is_word_start(b: u8) -> bool
    ensures { result ≡ begins b }
{
    b.is_ascii_alphabetic() || b == b'_'
}

pub(crate) fn is_word_byte(b: u8) -> bool
    ensures { result ≡ continues b }
{
    b.is_ascii_alphanumeric() || b == b'_'
}

pub(crate) fn is_printable(b: u8) -> bool
    ensures { result ≡ printable b }
{
    b >= b' ' && b <= b'~'
}
