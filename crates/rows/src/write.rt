// Rows and kept entries of all types, in one pass in falling rank: the rows of a type's bases stand when its own is written.
ghost use Rattle.std.specs.Prelude.{◌≡◌, ℕ, ◌+◌, ◌*◌, ◌<◌, ◌≤◌, length, take, drop};
ghost use Rattle.descent.specs.Links.{Linked};
ghost use Rattle.descent.specs.Trims.{ones};
ghost use Rattle.rows.specs.KeptEntries.{kept_of, kept_count};
ghost use Rattle.rows.specs.Layouts.{links_in, rows_in, row_places};
ghost use Rattle.rows.specs.Steps.{Whole, Outside, KeptFrom};

use crate::layout::Layout;
use crate::row::empty_row;
use crate::slots::fill_slots;
use crate::visit::visit_bases;

// The tables go as slices: a struct of them would ask each function that writes to them to promise that it still holds the
// same ones, which says no less than their lengths do.

// Writes the row of t and the kept entries of its links, where the rows of its bases stand.
fn write_row(layout: &Layout, t: u16, slots: &mut [u16], kept: &mut [u16], index: &mut [u16])
    requires below { t < layout.now.types }
    requires slots_room { layout.now.types ≤ length slots.old }
    requires kept_room { length (links_in layout.now) ≤ length kept.old }
    requires index_room { row_places layout.now ≤ length index.old }
    requires bases { (b : ℕ) → Linked (links_in layout.now) t b → Whole layout.now index.old b }
    ensures row { Whole layout.now index.new t }
    ensures outside { Outside layout.now.chains t index.old index.new }
    ensures kept { KeptFrom layout.now t layout.now.types kept.old kept.new }
    ensures slots_rest { drop layout.now.types slots.new ≡ drop layout.now.types slots.old }
{
    fill_slots(layout, t, slots);
    empty_row(layout, t, index);
    visit_bases(layout, t, slots, kept, index);
    index[layout.place(t, t)] = layout.position[t as usize];
}

/// Writes the rows of all types to the front of `index` and the kept entries of all links to the front of `kept`, and
/// answers the number of kept links. `slots` is working memory, an entry for each type.
pub fn write_rows(layout: &Layout, slots: &mut [u16], kept: &mut [u16], index: &mut [u16]) -> usize
    requires slots_room { layout.now.types ≤ length slots.old }
    requires kept_room { length (links_in layout.now) ≤ length kept.old }
    requires index_room { row_places layout.now ≤ length index.old }
    ensures count { result ≡ kept_count (links_in layout.now) }
    ensures kept { take (length (links_in layout.now)) kept.new ≡ kept_of (links_in layout.now) }
    ensures kept_rest { drop (length (links_in layout.now)) kept.new ≡ drop (length (links_in layout.now)) kept.old }
    ensures rows { take (row_places layout.now) index.new ≡ rows_in layout.now }
    ensures rows_rest { drop (row_places layout.now) index.new ≡ drop (row_places layout.now) index.old }
    ensures slots_rest { drop layout.now.types slots.new ≡ drop layout.now.types slots.old }
{
    for t in layout.order.iter().rev() {
        write_row(layout, *t, slots, kept, index);
    }
    kept[..layout.links.len()]
        .iter()
        .filter(|entry| **entry == 1)
        .count()
}
