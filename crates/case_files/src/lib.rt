// Files of cases: each case is a line `case LENGTH`, so many bytes, and byte 10.
#![tactic(auto)]

ghost use Rattle.std.specs.Prelude.{◌<◌, ◌≤◌, length, IfOk};
ghost use Rattle.std.specs.Iterator.{at_most};

use anyhow::Context;
use std::alloc::{AllocError, Global};
use std::io::{Read, Write};

// Where the length of a case begins in its heading.
const HEADING: usize = 5;

// The length that a heading tells, and what stands behind the byte that ends it. By hand: a heading without digits tells 0,
// and one that is too long is as long as can be, where `parse` would refuse both.
fn length_of(input: &[u8]) -> (usize, &[u8])
    ensures { length result.1.now ≤ length input.now }
{
    let told = input.get(HEADING..).unwrap_or_default();
    let end = told
        .iter()
        .position(|b| !b.is_ascii_digit())
        .unwrap_or(told.len());
    let length = told[..end].iter().fold(0usize, |length, digit| {
        length
            .saturating_mul(10)
            .saturating_add(usize::from(digit.saturating_sub(b'0')))
    });
    let behind = told.get(end.saturating_add(1)..).unwrap_or_default();
    (length, behind)
}

// The bytes of the first case, and the cases behind it.
fn first_case(input: &[u8]) -> anyhow::Result<(&[u8], &[u8])>
    ensures { IfOk result (λ p. length p.1.now < length input.now) }
{
    let (length, behind) = length_of(input);
    let (case, rest) = behind
        .split_at_checked(length)
        .context("a case is cut off")?;
    let (_, cases) = rest.split_first().context("a case has no end")?;
    Ok((case, cases))
}

// The cases of an input that are left.
#[derive(Drop)]
struct Cases<'t> {
    rest: &'t [u8],
}

impl<'t> Iterator for Cases<'t> {
    type Item = anyhow::Result<&'t [u8]>;

    ghost remaining = { λ s. at_most (length s.rest.now) };

    fn next(&mut self) -> Option<anyhow::Result<&'t [u8]>> {
        if self.rest.is_empty() {
            return None;
        }
        match first_case(self.rest) {
            Ok((case, rest)) => {
                self.rest = rest;
                Some(Ok(case))
            }
            Err(error) => {
                self.rest = &[];
                Some(Err(error))
            }
        }
    }
}

// What each case of an input comes out as, under a line with its number.
fn run_cases<F: FnMut(&[u8]) -> Result<Vec<u8>, AllocError>>(
    heap: Global,
    input: &[u8],
    mut run: F,
) -> anyhow::Result<Vec<u8>>
    requires { F.IsAlwaysCallable run }
{
    let mut out = Vec::new(heap);
    for (number, case) in (1usize..).zip(Cases { rest: input }) {
        out.extend_from_slice(format!(in heap; "case {number}\n")?.as_bytes())?;
        out.extend_from_slice(&run(case?)?)?;
    }
    Ok(out)
}

/// Runs the cases of standard input, and prints what they come out as. Like the programs that run cases it has no `ensures`:
/// what they write is compared with what the second programs say.
pub fn run_input<F: FnMut(&[u8]) -> Result<Vec<u8>, AllocError>>(
    rt: &HostRuntime,
    run: F,
) -> anyhow::Result<()>
    requires { F.IsAlwaysCallable run }
{
    let heap = rt.alloc();
    let mut input = Vec::new(heap);
    rt.stdin().read_to_end(&mut input)?;
    let out = run_cases(heap, &input, run)?;
    rt.stdout().write_all(&out)?;
    Ok(())
}

#[cfg(test)]
mod tests {
    use super::run_cases;

    #[test]
    fn cases_are_run_in_order(rt: HostRuntime) {
        let heap = rt.alloc();
        let input = b"case 3\na\nb\ncase 0\n\n";
        let told = match run_cases(heap, input, |case| Vec::from_slice(heap, case)) {
            Ok(out) => out.as_slice() == b"case 1\na\nbcase 2\n".as_slice(),
            Err(_) => false,
        };
        assert!(rt; told);
    }
}
