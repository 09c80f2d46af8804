// The order of types: of the unranked types whose subtypes are all ranked, the lowest-numbered gets the next rank.
ghost use Rattle.std.specs.Prelude.{◌≡◌, ℕ, ◌+◌, ◌<◌, ◌≤◌, ◌&&◌, [], length, take, drop, ◌==◌, slice_index};
ghost use Rattle.descent.specs.Links.{Within};
ghost use Rattle.order.specs.Order.{order_of, lowest};
ghost use Rattle.order.specs.Ranks.{ranks_of};
ghost use Rattle.order.specs.Waiting.{waiting_of, links_between};

use descent::link::Link;

/// What the rank table holds for a type that has no rank: it is lent, and has 16-bit numbers.
pub const UNRANKED: u16 = 65535;

// Adds to each type's entry the number of links to it.
fn count_links(links: &[Link], waiting: &mut [u16])
    requires within { Within links.now (length waiting.old) }
    requires few { length links.now ≤ 65535 }
    requires clear { (t : ℕ) → t < length waiting.old → slice_index waiting.old t ≡ 0 }
    ensures { (t : ℕ) → t < length waiting.old → slice_index waiting.new t ≡ waiting_of links.now [] t }
{
    for link in links {
        waiting[link.to as usize] += 1;
    }
}

// Takes the links from t off the entries of its bases.
// Not inlined: it runs over all links once for each type, and its loop takes up to half as long again where it lies badly in
// the program. So settling was fastest, of the ways tried.
#[inline(never)]
fn release(links: &[Link], t: u16, waiting: &mut [u16])
    requires within { Within links.now (length waiting.old) }
    requires counted { (u : ℕ) → u < length waiting.old → links_between links.now t u ≤ slice_index waiting.old u }
    ensures { (u : ℕ) → u < length waiting.old → slice_index waiting.new u + links_between links.now t u ≡ slice_index waiting.old u }
{
    for link in links {
        if link.from == t {
            waiting[link.to as usize] -= 1;
        }
    }
}

// The lowest unranked type that waits for no link.
fn next_type(types: u16, rank: &[u16], waiting: &[u16]) -> Option<u16>
    requires rank_room { types ≤ length rank.now }
    requires waiting_room { types ≤ length waiting.now }
    ensures { result ≡ lowest (λ t. (slice_index rank.now t == 65535) && slice_index waiting.now t == 0) 0 types }
{
    (0..types).find(|t| rank[*t as usize] == UNRANKED && waiting[*t as usize] == 0)
}

/// Ranks the types below `types`: of the unranked types whose subtypes are all ranked, the lowest-numbered gets the next rank.
/// Writes the type of each rank to the front of `order`, and the rank of each type, or `UNRANKED`, to `rank`;
/// answers how many types got a rank. `waiting` is working memory, an entry for each type.
pub fn rank_types(
    types: u16,
    links: &[Link],
    order: &mut [u16],
    rank: &mut [u16],
    waiting: &mut [u16],
) -> usize
    requires within { Within links.now types }
    requires few { length links.now ≤ 65535 }
    requires order_room { types ≤ length order.old }
    requires rank_room { types ≤ length rank.old }
    requires waiting_room { types ≤ length waiting.old }
    ensures count { result ≡ length (order_of types links.now) }
    ensures order { take result order.new ≡ order_of types links.now }
    ensures order_rest { drop result order.new ≡ drop result order.old }
    ensures ranks { take types rank.new ≡ ranks_of types links.now }
    ensures ranks_rest { drop types rank.new ≡ drop types rank.old }
    ensures waiting_rest { drop types waiting.new ≡ drop types waiting.old }
{
    let rank = &mut rank[..types as usize];
    let waiting = &mut waiting[..types as usize];
    rank.fill(UNRANKED);
    waiting.fill(0);
    count_links(links, waiting);
    // By rank: it is the place in the order, and also what the table of ranks gets.
    for next in 0..types {
        let Some(t) = next_type(types, rank, waiting) else {
            return next as usize;
        };
        order[next as usize] = t;
        rank[t as usize] = next;
        release(links, t, waiting);
    }
    types as usize
}
