// Read access to what a book holds.
ghost use Rattle.std.specs.Prelude.{◌≡◌};
ghost use Rattle.declarations.specs.Books.{state_of};

use crate::book::Book;
use register::register::Register;

impl Book {
    /// What is entered and settled, and its tables.
    pub fn register(&self) -> &Register
        ensures { result.now ≡ self.now.register }
    {
        &self.register
    }

    /// How many questions were answered; it stays at its largest value.
    pub fn asks(&self) -> u32
        ensures { result ≡ (state_of self.now).asks }
    {
        self.asks
    }

    /// Takes the book apart, and gives back what is entered and settled.
    pub fn into_register(self) -> Register
        ensures { result ≡ self.register }
    {
        let Book {
            register,
            opened: _,
            mark: _,
            asks: _,
        } = self;
        register
    }
}
