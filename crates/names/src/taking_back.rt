// Taking names back.
ghost use Rattle.std.specs.Prelude.{◌≡◌, ◌≤◌, length, take};
ghost use Rattle.names.specs.Tables.{bytes_of};
ghost use Rattle.names.specs.Entering.{back_answer, names_left, SameIfRefused};
ghost use Rattle.names.specs.Held.{names_in, pool_size, table_size, Holds};

use crate::names::Names;
use crate::refusal::NotEntered;
use crate::span::NO_SPAN;

impl Names {
    // How many bytes the first names take.
    fn bytes_of_first(&self, names: u16) -> usize
        requires entered { names ≤ self.now.count }
        ensures bytes { result ≡ length (bytes_of (take names (names_in self.now))) }
        ensures within { result ≤ self.now.used }
    {
        if names < self.count {
            self.spans[names as usize].start as usize
        } else {
            self.used
        }
    }

    /// Takes back all but the first `left` types, and sets the places that they give up to 0.
    pub fn take_back(&mut self, left: u16) -> Result<(), NotEntered>
        ensures answer { result ≡ back_answer (names_in self.old) left }
        ensures after { Holds (names_left (names_in self.old) left result) (pool_size self.old) (table_size self.old) self.new }
        ensures unchanged { SameIfRefused result self.old self.new }
    {
        let types = self.count;
        if left > types {
            return Err(NotEntered { left, types });
        }
        let bytes = self.bytes_of_first(left);
        self.pool[bytes..self.used].fill(0);
        self.spans[left as usize..types as usize].fill(NO_SPAN);
        self.used = bytes;
        self.count = left;
        Ok(())
    }
}
