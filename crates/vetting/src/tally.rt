// The lines of a text so far.
ghost use Rattle.std.specs.Prelude.{◌≤◌};

/// What is written of some lines, with how many declarations and lines there were.
// Counted as the lines come: a text is read once.
#[derive(Drop)]
pub(crate) struct Tally {
    pub(crate) shown: Vec<u8>,
    pub(crate) declarations: usize,
    pub(crate) lines: usize,
    ghost counted: { declarations ≤ lines },
}
