// Trimming: which links the others make needless.
ghost use Rattle.std.specs.Prelude.{◌≡◌, ◌<◌, length};
ghost use Rattle.descent.specs.Answers.{Keeps, Tells};
ghost use Rattle.descent.specs.Links.{Linked, Within};
ghost use Rattle.descent.specs.Refusals.{Refuses};
ghost use Rattle.descent.specs.Trims.{Implied, Flag, Rival, Trimmed, trim_refusal};

use crate::answerer::{Answerer, ask};
use crate::link::Link;
use crate::links::stray_end;
use crate::refusal::Refusal;

// Refuses a trim where an end of a link is not below the number of types, or there is not a place for each link.
fn check_trim(types: u16, links: &[Link], places: usize) -> Result<(), Refusal>
    ensures { Refuses (trim_refusal types links.now places) result }
{
    if let Some(number) = stray_end(links, types) {
        return Err(Refusal::NotBelow { number, types });
    }
    if places < links.len() {
        return Err(Refusal::ShortFlags {
            places,
            links: links.len(),
        });
    }
    Ok(())
}

// Whether the other link leads to another base of the type where `link` starts, and is none of the earlier ones. By `any`,
// which stops where it finds it; `contains` tests links in groups.
fn is_rival(earlier: &[Link], other: Link, link: Link) -> bool
    ensures { Tells result (Rival earlier.now other link) }
{
    other.from == link.from && other.to != link.to && !earlier.iter().any(|known| *known == other)
}

// The flag of a link: 0 where another base of its type is related to its end, else 1. Each base is asked about once.
// A number and no `bool`: so it stands in the host's table.
fn flag<A: Answerer>(links: &[Link], answerer: &mut A, link: Link) -> u16
    requires links { Within links.now (A.count answerer.old) }
    requires link { link.to < A.count answerer.old }
    ensures kept { Keeps A.count A.relates answerer.old answerer.new }
    ensures flag { Flag result (Implied links.now (A.relates answerer.old) link) }
{
    for (k, other) in links.iter().enumerate() {
        if is_rival(&links[..k], *other, link) && ask(answerer, other.to, link.to) {
            return 0;
        }
    }
    1
}

/// Writes a flag for each link: 0 for a link from `a` to `b` where another link from `a` leads to a type that is
/// related to `b`, else 1. Answers the number of ones. Refused where an end of a link is not below the number of
/// types, or there is not a flag place for each link; then no flag is written.
pub fn trim<A: Answerer>(
    links: &[Link],
    answerer: &mut A,
    flags: &mut [u16],
) -> Result<usize, Refusal>
    ensures kept { Keeps A.count A.relates answerer.old answerer.new }
    ensures trimmed { Trimmed links.now (A.count answerer.old) (A.relates answerer.old) flags.old flags.new result }
{
    check_trim(answerer.types(), links, flags.len())?;
    // By place, since a zip with `flags.iter_mut()` leaves the goal of `trimmed` open: it says nothing of the flags afterwards.
    for (i, link) in links.iter().enumerate() {
        flags[i] = flag(links, answerer, *link);
    }
    let written = &flags[..links.len()];
    Ok(written.iter().filter(|flag| **flag == 1).count())
}
