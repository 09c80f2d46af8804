// Hierarchies of the largest size: the widest, the deepest and a dense one.
use hierarchy::book::Hierarchy;
use hierarchy::entered::{MOST_LINKS, MOST_TYPES};

// How many bases a type has at most, but for the dense hierarchy.
const BASES: u16 = 8;

const WIDTH: u16 = MOST_TYPES - BASES;

// Enters all types.
pub fn enter_types(book: &mut Hierarchy) {
    for _ in 0..MOST_TYPES {
        let _ = book.enter_type();
    }
}

// The last few types are bases of all the others: no path is longer than a link.
pub fn enter_widest(book: &mut Hierarchy) {
    for base in WIDTH..MOST_TYPES {
        link_to(book, base);
    }
}

fn link_to(book: &mut Hierarchy, base: u16) {
    for from in 0..WIDTH {
        let _ = book.enter_link(from, base);
    }
}

// One chain of all types: each is linked to the next few. (A link past the last type is refused.)
pub fn enter_deepest(book: &mut Hierarchy) {
    for step in 1..=BASES {
        link_over(book, step);
    }
}

fn link_over(book: &mut Hierarchy, step: u16) {
    for from in 0..MOST_TYPES {
        let _ = book.enter_link(from, from.saturating_add(step));
    }
}

// The number after a number, in no plain pattern.
fn after(seed: u32) -> u32 {
    seed.wrapping_mul(1_103_515_245).wrapping_add(12_345)
}

// As many links as there may be, from types to others that stand up to 128 places above, in no plain pattern.
pub fn enter_dense(book: &mut Hierarchy) {
    let mut seed = 1u32;
    for _ in 0..2 * MOST_LINKS {
        seed = after(seed);
        let from = ((seed >> 21) & 1023) as u16;
        seed = after(seed);
        let step = ((seed >> 16) & 127) as u16;
        let _ = book.enter_link(from, from.saturating_add(step).saturating_add(1));
    }
}
