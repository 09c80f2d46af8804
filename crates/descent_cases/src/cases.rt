// One case: a walk, a pile over it, what is asked of the pile, and the marks that come back.
use crate::asked::Asked;
use crate::numbers::{links, list};
use crate::shape::Shape;
use case_numbers::Numbers;
use descent::answerer::Answerer;
use descent::gate::Gate;
use descent::nearest::nearest;
use descent::opposite::Opposite;
use descent::refusal::{Refusal, Report};
use descent::trim::trim;
use walk::walk::Walk;

// What a mark or a flag place holds before.
const OLD: u16 = 7;

pub fn run_case(rt: &HostRuntime, numbers: &mut Numbers<u16>) -> anyhow::Result<()> {
    let types = numbers.next()?;
    let marks = vec![in rt.alloc(); OLD; numbers.next()? as usize]?;
    let links = links(rt.alloc(), numbers)?;
    let shape = Shape::from(numbers.next()?);
    let low = list(rt.alloc(), numbers)?;
    let high = list(rt.alloc(), numbers)?;
    match Walk::new(&links, marks, types) {
        Ok(walk) => {
            let walk = run_pile(rt, walk, shape, &low, &high, numbers)?;
            say_marks(rt, &walk.into_marks())
        }
        Err(back) => {
            say_refusal(rt, back.refusal)?;
            say_marks(rt, &back.given)
        }
    }
}

// Puts the layers of a shape over the walk, runs what is asked, and takes the layers off.
fn run_pile<'w>(
    rt: &HostRuntime,
    walk: Walk<'w>,
    shape: Shape,
    low: &[u16],
    high: &[u16],
    numbers: &mut Numbers<u16>,
) -> anyhow::Result<Walk<'w>> {
    match shape {
        Shape::Walk => run_all(rt, walk, numbers),
        Shape::Gate => run_gated(rt, walk, low, |gate| run_all(rt, gate, numbers)),
        Shape::Opposite => Ok(run_all(rt, Opposite::new(walk), numbers)?.into_below()),
        Shape::GateOppositeGate => run_gated(rt, walk, low, |gate| {
            let pile = Opposite::new(gate);
            Ok(run_gated(rt, pile, high, |gate| run_all(rt, gate, numbers))?.into_below())
        }),
        Shape::TwoGates => run_gated(rt, walk, low, |gate| {
            run_gated(rt, gate, high, |gate| run_all(rt, gate, numbers))
        }),
    }
}

// Puts a gate over what stands, runs what is asked of it, and takes the gate off.
fn run_gated<'l, P: Answerer + Drop, F: FnOnce(Gate<'l, P>) -> anyhow::Result<Gate<'l, P>>>(
    rt: &HostRuntime,
    below: P,
    levels: &'l [u16],
    run: F,
) -> anyhow::Result<P>
    requires { F.IsAlwaysCallable run }
{
    match Gate::new(below, levels) {
        Ok(gate) => Ok(run(gate)?.into_below()),
        Err(back) => {
            say_refusal(rt, back.refusal)?;
            Ok(back.given)
        }
    }
}

fn run_all<P: Answerer + Drop>(
    rt: &HostRuntime,
    below: P,
    numbers: &mut Numbers<u16>,
) -> anyhow::Result<P> {
    let mut asked = Asked {
        below,
        questions: 0,
    };
    let count = numbers.next()?;
    for _ in 0..count {
        asked.questions = 0;
        // A case is all numbers: 1 asks a question, 2 a trim, any other a nearest.
        match numbers.next()? {
            1 => run_question(rt, &mut asked, numbers)?,
            2 => run_trim(rt, &mut asked, numbers)?,
            _ => run_nearest(rt, &mut asked, numbers)?,
        }
    }
    let Asked {
        below,
        questions: _,
    } = asked;
    Ok(below)
}

fn run_question<P: Answerer>(
    rt: &HostRuntime,
    asked: &mut Asked<P>,
    numbers: &mut Numbers<u16>,
) -> anyhow::Result<()> {
    let a = numbers.next()?;
    let b = numbers.next()?;
    match asked.related(a, b) {
        Ok(true) => println!(rt; "{a} {b}: yes")?,
        Ok(false) => println!(rt; "{a} {b}: no")?,
        Err(refusal) => say_refusal(rt, refusal)?,
    }
    Ok(())
}

fn run_trim<P: Answerer>(
    rt: &HostRuntime,
    asked: &mut Asked<P>,
    numbers: &mut Numbers<u16>,
) -> anyhow::Result<()> {
    let links = links(rt.alloc(), numbers)?;
    let mut flags = vec![in rt.alloc(); OLD; numbers.next()? as usize]?;
    match trim(&links, asked, &mut flags) {
        Ok(kept) => {
            let questions = asked.questions;
            println!(rt; "trim: {kept} of {flags:?}, {questions} questions")?;
        }
        Err(refusal) => {
            say_refusal(rt, refusal)?;
            println!(rt; "trim: {flags:?}")?;
        }
    }
    Ok(())
}

fn run_nearest<P: Answerer>(
    rt: &HostRuntime,
    asked: &mut Asked<P>,
    numbers: &mut Numbers<u16>,
) -> anyhow::Result<()> {
    let a = numbers.next()?;
    let b = numbers.next()?;
    match nearest(asked, a, b) {
        Ok(Some(base)) => {
            let questions = asked.questions;
            println!(rt; "nearest of {a} and {b}: {base}, {questions} questions")?;
        }
        Ok(None) => println!(rt; "nearest of {a} and {b}: none")?,
        Err(refusal) => say_refusal(rt, refusal)?,
    }
    Ok(())
}

// A refusal for people, and its number and values.
fn say_refusal(rt: &HostRuntime, refusal: Refusal) -> anyhow::Result<()> {
    let Report { number, values } = refusal.report();
    println!(rt; "{refusal} ({number} {values:?})")?;
    Ok(())
}

// How many marks there are, and how many are not 0.
fn say_marks(rt: &HostRuntime, marks: &[u16]) -> anyhow::Result<()> {
    let places = marks.len();
    let left = marks.iter().filter(|mark| **mark != 0).count();
    println!(rt; "marks: {left} of {places}")?;
    Ok(())
}
