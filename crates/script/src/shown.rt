// What is printed for an answer, and for a step that makes no call.
ghost use Rattle.std.specs.Prelude.{◌≡◌, Some, IfOk, vec_len};
ghost use Rattle.script.specs.Shown.{shown_answer, shown_unknown, shown_remark};

use crate::step::Remark;
use declarations::call::{Answer, Stub};
use register::refusal::NotAsked;
use settling::outcome::{Settled, Unsettled};
use std::alloc::{AllocError, Global};
use std::fmt;

// An answer, to be printed as a line with byte 10.
#[derive(Clone, Copy)]
struct Shown(Answer);

impl fmt::Display for Shown {
    ghost output = { λ x. Some (shown_answer x.0) };

    fn fmt<W: fmt::Write>(&self, f: &mut fmt::Formatter<W>) -> fmt::Result {
        match self.0 {
            Answer::Load(Ok(())) => f.write_str("load: accepted\n"),
            Answer::Load(Err(refusal)) => write!(f, "load: refused {}\n", refusal.report()),
            Answer::Open(Ok(Stub { book, trial })) => write!(f, "open: ticket {book} {trial}\n"),
            Answer::Open(Err(_)) => f.write_str("open: refused 14\n"),
            Answer::Keep(Ok(())) => f.write_str("keep: accepted\n"),
            Answer::Keep(Err(_)) => f.write_str("keep: refused 15\n"),
            Answer::Withdraw(Ok(())) => f.write_str("withdraw: accepted\n"),
            Answer::Withdraw(Err(_)) => f.write_str("withdraw: refused 15\n"),
            Answer::Settle(
                Ok(
                    Settled {
                        types,
                        links,
                        chains,
                        kept,
                    },
                ),
            ) => write!(f, "settle: {types} {links} {chains} {kept}\n"),
            Answer::Settle(Err(Unsettled::ShortTable)) => f.write_str("settle: refused 9\n"),
            Answer::Settle(Err(Unsettled::Loop { length })) => {
                write!(f, "settle: refused 10 {length}\n")
            }
            Answer::Settle(Err(Unsettled::ShortIndex { needed })) => {
                write!(f, "settle: refused 11 {needed}\n")
            }
            Answer::Ask(Ok(true)) => f.write_str("ask: yes\n"),
            Answer::Ask(Ok(false)) => f.write_str("ask: no\n"),
            Answer::Ask(Err(NotAsked::NotSettled)) => f.write_str("ask: refused 12\n"),
            Answer::Ask(Err(NotAsked::Unknown { which })) => {
                write!(f, "ask: refused 13 {which}\n")
            }
        }
    }
}

/// The line that is printed for an answer, with byte 10.
pub fn show_answer(heap: Global, answer: Answer) -> Result<Vec<u8>, AllocError>
    ensures { IfOk result (λ v. v.items ≡ shown_answer answer) }
{
    Ok(format!(in heap; "{}", Shown(answer))?.into_bytes())
}

// The word is printed as its bytes, which need not be text that `Display` could write.
fn show_unknown(heap: Global, word: &[u8]) -> Result<Vec<u8>, AllocError>
    ensures { IfOk result (λ v. v.items ≡ shown_unknown word.now) }
{
    let mut shown = Vec::from_slice(heap, b"unknown: ")?;
    shown.extend_from_slice(word)?;
    shown.push(b'\n')?;
    Ok(shown)
}

/// The line that is printed for a step that makes no call, with byte 10.
pub fn show_remark(heap: Global, remark: Remark) -> Result<Vec<u8>, AllocError>
    ensures { IfOk result (λ v. v.items ≡ shown_remark remark.entry) }
{
    match remark {
        Remark::Unknown(word) => show_unknown(heap, word),
        Remark::Tables => Vec::from_slice(heap, b"tables: refused\n"),
        Remark::Keep => Vec::from_slice(heap, b"keep: no ticket\n"),
        Remark::Withdraw => Vec::from_slice(heap, b"withdraw: no ticket\n"),
    }
}
