// The names of types by number, and their numbers by name.
ghost use Rattle.std.specs.Prelude.{◌≡◌, ◌<◌, [], slice_index_or};
ghost use Rattle.std.specs.Option.{option_map};
ghost use Rattle.names.specs.Finding.{name_of, number_in};
ghost use Rattle.names.specs.Held.{names_in};

use crate::names::Names;

impl Names {
    // The name of a type, as the part of the pool that its entry marks.
    fn marked(&self, number: u16) -> &[u8]
        requires entered { number < self.now.count }
        ensures { result.now ≡ slice_index_or (names_in self.now) number [] }
    {
        &self.pool[self.spans[number as usize].range()]
    }

    /// The name of the type of that number, a part of the pool, if there is such a type.
    pub fn name(&self, number: u16) -> Option<&[u8]>
        ensures { option_map (λ x. x.now) result ≡ name_of (names_in self.now) number }
    {
        if number < self.count {
            Some(self.marked(number))
        } else {
            None
        }
    }

    /// The number of the type of that name, if there is such a type.
    // Not inlined: within a caller its loop came to lie so that asks by name took up to 1.4 times as long.
    #[inline(never)]
    pub fn find(&self, bytes: &[u8]) -> Option<u16>
        ensures { result ≡ number_in (names_in self.now) bytes.now }
    {
        // In two steps: what is answered is said apart from the search for it.
        let number = (0..self.count).find(|number| self.marked(*number) == bytes)?;
        Some(number)
    }
}
