// The output that a book is written into.

/// An output, and the place where the next byte goes. The place goes on past the end, where nothing is written.
// The place stands beside the output, which is the host's and keeps its length; it also counts what does not fit.
#[derive(Drop)]
pub(crate) struct Output<'o> {
    pub(crate) out: &'o mut [u8],
    pub(crate) at: usize,
}

impl<'o> Output<'o> {
    ghost use Rattle.printing.specs.Putting.{Puts, EndFits};

    /// Puts the bytes, if they find their places.
    pub(crate) fn put(&mut self, bytes: &[u8])
        requires { EndFits bytes.now self.old }
        ensures { Puts bytes.now self.old self.new }
    {
        let at = self.at;
        let end = at + bytes.len();
        if end <= self.out.len() {
            self.out[at..end].copy_from_slice(bytes);
        }
        self.at = end;
    }
}
