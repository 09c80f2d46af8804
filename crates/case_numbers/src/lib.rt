// The numbers of a line of a script of cases.
#![tactic(auto)]

ghost use Rattle.std.specs.Prelude.{◌≡◌, ◌∷◌, IfOk};
ghost use Rattle.std.specs.Vec.Iter.{into_iter_items, into_iter_len};

use anyhow::Context;
use std::alloc::Global;
use std::num::ParseIntError;
use std::str::{FromStr, SplitWhitespace};
use std::vec::IntoIter;

/// The numbers of a line that are left, taken one after the other.
#[derive(Drop)]
pub struct Numbers<T> {
    left: IntoIter<T>,
}

impl<T: FromStr<Err = ParseIntError> + Drop> Numbers<T> {
    /// Reads all numbers of a line, before the first is taken.
    pub fn read(heap: Global, words: SplitWhitespace<'_>) -> anyhow::Result<Numbers<T>> {
        let mut numbers = Vec::new(heap);
        for word in words {
            numbers.push(word.parse::<T>()?)?;
        }
        Ok(Numbers {
            left: numbers.into_iter(),
        })
    }

    /// The next number.
    pub fn next(&mut self) -> anyhow::Result<T>
        ensures { IfOk result (λ n. into_iter_items self.old.left ≡ n ∷ into_iter_items self.new.left) }
    {
        self.left.next().context("a number is missing")
    }

    /// How many numbers are left.
    pub fn count(&self) -> usize
        ensures { result ≡ into_iter_len self.now.left }
    {
        self.left.len()
    }
}

#[cfg(test)]
mod tests {
    use super::Numbers;

    #[test]
    fn numbers_are_taken_in_order(rt: HostRuntime) {
        let told = match Numbers::<u16>::read(rt.alloc(), "7 65535".split_whitespace()) {
            Ok(mut numbers) => {
                let first = numbers.next().unwrap_or(0);
                let left = numbers.count();
                let second = numbers.next().unwrap_or(0);
                first == 7 && left == 1 && second == 65_535 && numbers.next().is_err()
            }
            Err(_) => false,
        };
        assert!(rt; told);
    }
}
