// An entry of the name table.
ghost use Rattle.std.specs.Prelude.{◌≡◌, ◌+◌};

use std::ops::Range;

/// Where a name lies in the byte pool: its first byte, and how many bytes it has.
#[derive(Clone, Copy, Debug, PartialEq, Eq)]
pub struct Span {
    pub start: u32,
    pub length: u32,
}

impl Span {
    // The places of the pool that it marks.
    pub(crate) fn range(self) -> Range<usize>
        ensures { result ≡ record { start = self.start; end = self.start + self.length } }
    {
        let start = self.start as usize;
        start..start + self.length as usize
    }
}

/// An entry that belongs to no type.
pub(crate) const NO_SPAN: Span = Span {
    start: 0,
    length: 0,
};
