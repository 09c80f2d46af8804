// The loop that leaves types unranked: from an unranked type down to an unranked subtype, again and again, one comes round.
ghost use Rattle.std.specs.Prelude.{◌≡◌, ℕ, ◌-◌, ◌<◌, ◌≤◌, length, take, drop, slice_index};
ghost use Rattle.descent.specs.Links.{Within};
ghost use Rattle.descent.specs.Loops.{Loop};
ghost use Rattle.order.specs.Order.{order_of, lowest};
ghost use Rattle.order.specs.Ranks.{ranks_of};
ghost use Rattle.order.specs.Down.{unranked, subtype, down, walked, Round};

use crate::ranking::UNRANKED;
use descent::link::Link;

// A ranking that came to a halt: the ranks of the types, which leave some type unranked.
#[derive(Clone, Copy)]
struct Stuck<'l, 'r> {
    types: u16,
    links: &'l [Link],
    rank: &'r [u16],
    ghost within: { Within links.now types },
    ghost room: { types ≤ length rank.now },
    ghost ranks: { take types rank.now ≡ ranks_of types links.now },
    ghost some: { length (order_of types links.now) < types },
}

impl Stuck<'_, '_> {
    // The lowest unranked type.
    fn first_unranked(&self) -> Option<u16>
        ensures { result ≡ lowest (unranked self.now.rank.now) 0 self.now.types }
    {
        (0..self.types).find(|t| self.rank[*t as usize] == UNRANKED)
    }

    // The unranked subtype of t by the first link from one.
    fn unranked_subtype(&self, t: u16) -> Option<u16>
        ensures { result ≡ subtype self.now.links.now (unranked self.now.rank.now) t }
    {
        self.links
            .iter()
            .find(|link| link.to == t && self.rank[link.from as usize] == UNRANKED)
            .map(|link| link.from)
    }

    // Where one stands after as many steps down as there are types.
    fn walk_down(&self, t: u16) -> u16
        ensures { result ≡ walked (down self.now.links.now (unranked self.now.rank.now)) t self.now.types }
    {
        let mut at = t;
        for _ in 0..self.types {
            at = self.unranked_subtype(at).unwrap_or(at);
        }
        at
    }

    // Writes the types of the steps down from the start to the front of the table, until one comes round; answers their number.
    fn write_round(&self, start: u16, table: &mut [u16]) -> usize
        requires table_room { self.now.types ≤ length table.old }
        requires round { (p : ℕ) × (0 < p) × (p ≤ self.now.types) × (walked (down self.now.links.now (unranked self.now.rank.now)) start p ≡ start) }
        ensures round { Round (down self.now.links.now (unranked self.now.rank.now)) start result }
        ensures written { (i : ℕ) → i < result → slice_index table.new i ≡ walked (down self.now.links.now (unranked self.now.rank.now)) start i }
        ensures bound { result ≤ self.now.types }
        ensures rest { drop result table.new ≡ drop result table.old }
    {
        let mut at = start;
        for (i, place) in table.iter_mut().enumerate() {
            *place = at;
            at = self.unranked_subtype(at).unwrap_or(at);
            if at == start {
                return i + 1;
            }
        }
        unreachable()
    }
}

/// Writes one loop to the front of `table`, each type linked to the next and the last to the first, and answers its length.
/// `rank` holds the ranks of the types below `types`, which leave some type unranked.
pub fn find_loop(types: u16, links: &[Link], rank: &[u16], table: &mut [u16]) -> usize
    requires within { Within links.now types }
    requires room { types ≤ length rank.now }
    requires ranks { take types rank.now ≡ ranks_of types links.now }
    requires some { length (order_of types links.now) < types }
    requires table_room { types ≤ length table.old }
    ensures written { Loop links.now (take result table.new) }
    ensures bound { result ≤ types }
    ensures rest { drop result table.new ≡ drop result table.old }
{
    let stuck = Stuck { types, links, rank };
    let start = stuck.walk_down(stuck.first_unranked().unwrap());
    let length = stuck.write_round(start, table);
    table[..length].reverse();
    length
}
