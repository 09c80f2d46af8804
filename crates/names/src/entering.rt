// Entering names.
ghost use Rattle.std.specs.Prelude.{◌≡◌};
ghost use Rattle.names.specs.Entering.{place_answer, enter_answer, names_after, SameUnlessNew};
ghost use Rattle.names.specs.Held.{names_in, pool_size, table_size, Holds};

use crate::names::{MOST_BYTES, MOST_TYPES, Names};
use crate::refusal::{Entry, Refusal};
use crate::span::Span;

impl Names {
    // Refuses a type with that many bytes where it finds no entry, or where its bytes find no place.
    fn check_place(&self, bytes: usize) -> Result<(), Refusal>
        ensures { result ≡ place_answer (pool_size self.now) (table_size self.now) (names_in self.now) bytes }
    {
        if self.count as usize >= self.spans.len() || self.count >= MOST_TYPES {
            return Err(Refusal::NoTypePlace);
        }
        if bytes > self.pool.len() - self.used || bytes > MOST_BYTES - self.used {
            return Err(Refusal::NoBytePlace);
        }
        Ok(())
    }

    /// Enters a name. A known name is not entered twice; a new one takes an entry of the name table and its bytes of the pool.
    pub fn enter(&mut self, bytes: &[u8]) -> Result<Entry, Refusal>
        ensures answer { result ≡ enter_answer (pool_size self.old) (table_size self.old) (names_in self.old) bytes.now }
        ensures after { Holds (names_after (names_in self.old) bytes.now result) (pool_size self.old) (table_size self.old) self.new }
        ensures unchanged { SameUnlessNew result self.old self.new }
    {
        if let Some(number) = self.find(bytes) {
            return Ok(Entry::Known(number));
        }
        self.check_place(bytes.len())?;
        let number = self.count;
        let start = self.used;
        let end = start + bytes.len();
        self.pool[start..end].copy_from_slice(bytes);
        self.spans[number as usize] = Span {
            start: start as u32,
            length: bytes.len() as u32,
        };
        self.used = end;
        self.count = number + 1;
        Ok(Entry::New(number))
    }
}
