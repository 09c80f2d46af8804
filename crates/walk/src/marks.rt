// The mark table of a search, and the guard that holds it.
ghost use Rattle.walk.specs.Marks.{Clear};

/// Holds the mark table while a search runs, and sets it to 0 on each way out.
pub struct Guard<'m>(pub &'m mut [u16]);

impl Drop for Guard<'_> {
    fn drop(self)
        ensures { Clear self.exit.0.now }
    {
        self.0.fill(0);
        let Guard(_) = self;
    }
}
