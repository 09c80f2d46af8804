// Runs the cases on standard input, and prints what each comes out as. A case is a word and its arguments; bytes are
// written in hexadecimal, after `=` where they may be none.
#![tactic(auto)]

use anyhow::anyhow;
use grammar::declaration::{Declaration, Name, Unread, read_line};
use grammar::line::check_line;
use std::alloc::Global;
use std::io::{BufRead, BufReader};
use texts::refusal::{Place, Source};
use texts::text::{check_texts, faulty_line};
use vetting::vet;

// The bytes that a word writes; a last digit that has no other beside it writes none.
fn argument(heap: Global, word: Option<&str>) -> anyhow::Result<Vec<u8>> {
    let word = word.ok_or_else(|| anyhow!("an argument is wanting"))?;
    let digits = word.strip_prefix('=').unwrap_or(word).as_bytes();
    if !digits.iter().all(|digit| digit.is_ascii_hexdigit()) {
        return Err(anyhow!("not a digit"));
    }
    Ok(hex::decode(heap, &digits[..digits.len() / 2 * 2])?)
}

fn show_name(rt: &HostRuntime, name: Name) -> anyhow::Result<()> {
    let text = str::from_utf8(name.bytes)?;
    print!(rt; " {}:{text}", name.column)?;
    Ok(())
}

fn show_hex(rt: &HostRuntime, line: Option<&[u8]>) -> anyhow::Result<()> {
    match line {
        Some(bytes) => println!(rt; "={}", hex::encode(rt.alloc(), bytes)?)?,
        None => println!(rt; "-")?,
    }
    Ok(())
}

// The names of a line with their columns, or its fault; the check of the line has to agree.
fn run_line(rt: &HostRuntime, line: &[u8]) -> anyhow::Result<()> {
    let checked = check_line(line);
    match read_line(rt.alloc(), line) {
        Ok(read) => {
            let verdict = match checked {
                Ok(()) => "lawful",
                Err(_) => "check_line disagrees",
            };
            print!(rt; "{verdict}")?;
            if let Some(Declaration { name, bases }) = read {
                show_name(rt, name)?;
                for base in &bases {
                    show_name(rt, *base)?;
                }
            }
            println!(rt; "")?;
        }
        Err(Unread::Unlawful(fault)) => {
            if checked != Err(fault) {
                print!(rt; "check_line disagrees ")?;
            }
            println!(rt; "{} {}", fault.rule.number(), fault.column)?;
        }
        Err(Unread::NoMemory) => println!(rt; "no memory")?,
    }
    Ok(())
}

fn run_texts(rt: &HostRuntime, shipped: &[u8], own: &[u8]) -> anyhow::Result<()> {
    match check_texts(shipped, own) {
        Ok(()) => println!(rt; "lawful")?,
        Err(refusal) => {
            print!(rt; "{} ", refusal.report())?;
            show_hex(rt, faulty_line(refusal.place(), shipped, own))?;
        }
    }
    Ok(())
}

fn run_at(
    rt: &HostRuntime,
    text: &str,
    line: &str,
    shipped: &[u8],
    own: &[u8],
) -> anyhow::Result<()> {
    let place = Place {
        source: match text {
            "1" => Source::Shipped,
            _ => Source::Own,
        },
        line: line.parse()?,
        column: 0,
    };
    show_hex(rt, faulty_line(place, shipped, own))
}

fn run_vet(rt: &HostRuntime, input: &[u8]) -> anyhow::Result<()> {
    let answer = vet(rt.alloc(), input)?;
    println!(rt;
        "{}",
        str::from_utf8(&answer)?.replace(rt.alloc(), '\n', "|")?
    )?;
    Ok(())
}

fn run_case(rt: &HostRuntime, case: &str) -> anyhow::Result<()> {
    let heap = rt.alloc();
    let mut words = case.split(' ');
    match words.next().unwrap_or("") {
        "line" => run_line(rt, &argument(heap, words.next())?),
        "texts" => {
            let shipped = argument(heap, words.next())?;
            let own = argument(heap, words.next())?;
            run_texts(rt, &shipped, &own)
        }
        "at" => {
            let text = words.next().unwrap_or("");
            let line = words.next().unwrap_or("");
            let shipped = argument(heap, words.next())?;
            let own = argument(heap, words.next())?;
            run_at(rt, text, line, &shipped, &own)
        }
        "vet" => run_vet(rt, &argument(heap, words.next())?),
        _ => Err(anyhow!("no such case")),
    }
}

fn main(rt: HostRuntime) -> anyhow::Result<()> {
    for case in BufReader::new(rt.alloc(), rt.stdin())?.lines(rt.alloc()) {
        run_case(&rt, &case?)?;
    }
    Ok(())
}
