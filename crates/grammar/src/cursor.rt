// Places in a line.
ghost use Rattle.std.specs.Prelude.{◌≤◌, length};

/// A place in a line: where the outermost name there began, how far the reading has come, and how many brackets are open.
// The whole line stands in it, and not its rest: the column of a fault and the bytes of a name are counted in the line.
#[derive(Clone, Copy)]
pub(crate) struct Cursor<'t> {
    pub(crate) line: &'t [u8],
    pub(crate) from: usize,
    pub(crate) pos: usize,
    pub(crate) depth: u8,
    ghost begun: { from ≤ pos },
    ghost within: { pos ≤ length line.now },
    ghost few_open: { depth ≤ 8 },
}
