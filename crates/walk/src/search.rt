// The search for a descent: sweeps over the links, which mark what the first type descends from.
ghost use Rattle.std.specs.Prelude.{◌≡◌, ℕ, ◌<◌, length, slice_index};
ghost use Rattle.descent.specs.Answers.{Tells};
ghost use Rattle.descent.specs.Links.{Descends, Within};
ghost use Rattle.walk.specs.Marks.{Clear};
ghost use Rattle.walk.specs.Sweeps.{Marked, Reached, Swept};

use crate::marks::Guard;
use descent::link::Link;

/// How a sweep ended.
#[derive(Clone, Copy)]
pub enum Progress {
    /// It came to the type that is sought.
    Found,
    /// It marked more types.
    Grew,
    /// No link leads from a marked type to one that is not.
    Still,
}

// Marks the end of each link that starts at a marked type, until it comes to the one that is sought.
fn sweep(links: &[Link], marks: &mut [u16], sought: u16) -> Progress
    requires within { Within links.now (length marks.old) }
    requires unseen { slice_index marks.old sought ≡ 0 }
    ensures reached { (a : ℕ) → Reached links.now a marks.old → Reached links.now a marks.new }
    ensures kept { (k : ℕ) → Marked marks.old k → Marked marks.new k }
    ensures unseen { slice_index marks.new sought ≡ 0 }
    ensures swept { Swept links.now (length links.now) marks.old marks.new sought result }
{
    let mut progress = Progress::Still;
    for link in links {
        let Link { from, to } = *link;
        if marks[from as usize] != 0 && marks[to as usize] == 0 {
            if to == sought {
                return Progress::Found;
            }
            marks[to as usize] = 1;
            progress = Progress::Grew;
        }
    }
    progress
}

/// Whether `a` descends from `b` by the links, at most as many sweeps over them as there are marks; leaves each mark at 0.
// Not inlined: a trim has it in its loop over the links, which then takes twice as long where the search is seldom asked for.
#[inline(never)]
pub fn search(links: &[Link], marks: &mut [u16], a: u16, b: u16) -> bool
    requires within { Within links.now (length marks.old) }
    requires first { a < length marks.old }
    requires clear { Clear marks.old }
    ensures clear { Clear marks.new }
    ensures answer { Tells result (Descends links.now a b) }
{
    if a == b {
        return true;
    }
    let guard = Guard(marks);
    guard.0[a as usize] = 1;
    loop {
        match sweep(links, guard.0, b) {
            Progress::Found => return true,
            Progress::Grew => {}
            Progress::Still => return false,
        }
    }
}
