// Joining over a decomposer: in ascending number, each chain is put on the end of the lowest-numbered other standing
// chain whose last type has a path to its first type, if any. Standing chains are renumbered in their old sequence.
ghost use Rattle.std.specs.Prelude.{◌≡◌, ℕ, ◌*◌, ◌<◌, ◌≤◌, map, length, if◌then◌else◌, Some, ◌≢◌, slice_index};
ghost use Rattle.std.specs.List.{range_with_len};
ghost use Rattle.chains.specs.Counting.{passing};
ghost use Rattle.descent.specs.Computed.{descends};
ghost use Rattle.order.specs.Order.{lowest};
ghost use Rattle.chains.specs.Ends.{Strung, Stands, Ends, has_last, is_host};
ghost use Rattle.chains.specs.Chains.{Chained};
ghost use Rattle.chains.specs.Joining.{put_behind, turns, joined};
ghost use Rattle.chains.specs.Meaning.{JoinedFrom};
ghost use Rattle.chains.specs.Places.{places};
ghost use Rattle.chains.specs.Renumbering.{joining_decomposes};

use crate::decomposer::Decomposer;
use crate::ranked::RankedTypes;

// The tables go as slices: a struct of them would ask each function that writes to them to promise that it still holds the
// same ones, which says no less than their lengths do.

// What the table of last types holds for a chain that does not stand: it is lent, and has 16-bit numbers.
const NO_TYPE: u16 = 65535;

// Marks with 1 the types that are t or have a path to it, and the others with 0: the marks are a part of the lent numbers.
fn mark_paths(ranked: &RankedTypes, t: u16, marks: &mut [u16])
    requires below { t < ranked.now.types }
    requires room { ranked.now.types ≤ length marks.old }
    ensures { (x : ℕ) → x < ranked.now.types → slice_index marks.new x ≡ (if descends ranked.now.links.now x t then 1 else 0) }
{
    marks.fill(0);
    marks[t as usize] = 1;
    for k in ranked.falling {
        let link = ranked.links[*k as usize];
        if marks[link.to as usize] == 1 {
            marks[link.from as usize] = 1;
        }
    }
}

// The lowest-numbered chain other than c that stands and whose last type is marked.
fn find_host(count: u16, c: u16, last: &[u16], marks: &[u16]) -> Option<u16>
    requires room { count ≤ length last.now }
    requires types { (d : ℕ) → d < count → (slice_index last.now d ≢ 65535) → slice_index last.now d < length marks.now }
    ensures { result ≡ lowest (is_host c last.now marks.now) 0 count }
{
    (0..count).find(|d| {
        let end = last[*d as usize];
        *d != c && end != NO_TYPE && marks[end as usize] == 1
    })
}

// Puts chain c behind the type u: its types are then on u's chain, at the positions after u's.
fn put_behind(c: u16, u: u16, chain: &mut [u16], position: &mut [u16])
    requires room { length position.old ≡ length chain.old }
    requires below { u < length chain.old }
    requires low { (t : ℕ) → t < length chain.old → slice_index position.old t ≤ 1024 }
    ensures { (k : ℕ) → places k chain.new position.new ≡ put_behind (length chain.old) (places k chain.old position.old) c (Some u) }
{
    let host = chain[u as usize];
    let shift = position[u as usize] + 1;
    for (t, on) in chain.iter_mut().enumerate() {
        if *on == c {
            *on = host;
            position[t] += shift;
        }
    }
}

// Writes the first type of each chain.
fn find_firsts(chain: &[u16], position: &[u16], first: &mut [u16])
    requires few { length chain.now ≤ 1024 }
    requires room { length position.now ≡ length chain.now }
    requires below { (t : ℕ) → t < length chain.now → slice_index chain.now t < length first.old }
    requires apart { (t u : ℕ) → t < length chain.now → u < length chain.now → slice_index chain.now t ≡ slice_index chain.now u → slice_index position.now t ≡ slice_index position.now u → t ≡ u }
    ensures { (t : ℕ) → t < length chain.now → slice_index position.now t ≡ 0 → slice_index first.new (slice_index chain.now t) ≡ t }
{
    for (t, (c, at)) in chain.iter().zip(position).enumerate() {
        if *at == 0 {
            first[*c as usize] = t as u16;
        }
    }
}

// Writes the last type of each chain over some type on it.
fn find_lasts(count: u16, chain: &[u16], position: &[u16], last: &mut [u16])
    requires few { length chain.now ≤ 1024 }
    requires room { length position.now ≡ length chain.now }
    requires last_room { count ≤ length last.old }
    requires below { (t : ℕ) → t < length chain.now → slice_index chain.now t < count }
    requires some { (c : ℕ) → c < count → (slice_index last.old c < length chain.now) × (slice_index chain.now (slice_index last.old c) ≡ c) }
    ensures some { (c : ℕ) → c < count → (slice_index last.new c < length chain.now) × (slice_index chain.now (slice_index last.new c) ≡ c) }
    ensures top { (t : ℕ) → t < length chain.now → slice_index position.now t ≤ slice_index position.now (slice_index last.new (slice_index chain.now t)) }
{
    for (t, c) in chain.iter().enumerate() {
        let end = &mut last[*c as usize];
        if position[*end as usize] < position[t] {
            *end = t as u16;
        }
    }
}

// Gives each chain its turn.
fn take_turns(
    ranked: &RankedTypes,
    count: u16,
    first: &[u16],
    last: &mut [u16],
    marks: &mut [u16],
    chain: &mut [u16],
    position: &mut [u16],
)
    requires first_room { count ≤ length first.now }
    requires last_room { count ≤ length last.old }
    requires marks_room { ranked.now.types ≤ length marks.old }
    requires chain_room { length chain.old ≡ ranked.now.types }
    requires position_room { length position.old ≡ ranked.now.types }
    requires strung { Strung ranked.now.types ranked.now.links.now (places count chain.old position.old) }
    requires ends { (d : ℕ) → d < count → Stands ranked.now.types (places count chain.old position.old) d (slice_index first.now d) (slice_index last.old d) }
    ensures turns { places count chain.new position.new ≡ turns ranked.now.types ranked.now.links.now (places count chain.old position.old) 0 count }
    ensures ends { Ends ranked.now.types (places count chain.new position.new) first.now last.new }
    ensures below { (t : ℕ) → t < ranked.now.types → slice_index chain.new t < count }
{
    // By number: the number of a chain is also what the table of chains holds for its types.
    for c in 0..count {
        mark_paths(ranked, first[c as usize], marks);
        if let Some(d) = find_host(count, c, last, marks) {
            put_behind(c, last[d as usize], chain, position);
            last[d as usize] = last[c as usize];
            last[c as usize] = NO_TYPE;
        }
    }
}

// Writes to each chain's entry how many of the chains before it stand; answers how many stand.
fn number_standing(count: u16, last: &[u16], number: &mut [u16]) -> u16
    requires last_room { count ≤ length last.now }
    requires number_room { count ≤ length number.old }
    ensures numbers { (d : ℕ) → d < count → slice_index number.new d ≡ passing d (has_last last.now) }
    ensures count { result ≡ passing count (has_last last.now) }
{
    // Each chain's entry gets the count so far, so it is kept on the way.
    let mut standing: u16 = 0;
    for (d, end) in last[..count as usize].iter().enumerate() {
        number[d] = standing;
        if *end != NO_TYPE {
            standing += 1;
        }
    }
    standing
}

// Gives each type its chain's new number.
fn renumber(number: &[u16], chain: &mut [u16])
    requires below { (t : ℕ) → t < length chain.old → slice_index chain.old t < length number.now }
    ensures { chain.new ≡ map (λ t. slice_index number.now (slice_index chain.old t)) (range_with_len 0 (length chain.old)) }
{
    for c in chain.iter_mut() {
        *c = number[*c as usize];
    }
}

// Joins the chains, over tables of one entry for each type; answers how many chains are left.
fn join_chains(
    ranked: &RankedTypes,
    count: u16,
    scratch: &mut [u16],
    chain: &mut [u16],
    position: &mut [u16],
) -> u16
    requires count { count ≤ ranked.now.types }
    requires scratch_room { 3 * ranked.now.types ≤ length scratch.old }
    requires chain_room { length chain.old ≡ ranked.now.types }
    requires position_room { length position.old ≡ ranked.now.types }
    requires chained { Chained ranked.now.types ranked.now.links.now chain.old position.old count }
    ensures joined { places result chain.new position.new ≡ joined ranked.now.types ranked.now.links.now (places count chain.old position.old) }
    ensures count { result ≤ count }
{
    let types = ranked.types as usize;
    let (first, rest) = scratch.split_at_mut(types);
    let (last, marks) = rest.split_at_mut(types);
    find_firsts(chain, position, first);
    last.copy_from_slice(first);
    find_lasts(count, chain, position, last);
    take_turns(ranked, count, first, last, marks, chain, position);
    let standing = number_standing(count, last, first);
    renumber(first, chain);
    standing
}

/// Joining over any decomposer.
#[derive(Drop)]
pub struct Joining<D> {
    pub inner: D,
}

impl<D: Decomposer> Decomposer for Joining<D> {
    ghost gives = { λ j. JoinedFrom (D.Decomposer.gives j.inner) };

    ghost meaning = { λ d. joining_decomposes _ (D.Decomposer.meaning d.inner) };

    fn decompose(
        &self,
        ranked: &RankedTypes,
        scratch: &mut [u16],
        chain: &mut [u16],
        position: &mut [u16],
    ) -> u16 {
        let types = ranked.types as usize;
        let count = self.inner.decompose(ranked, scratch, chain, position);
        join_chains(
            ranked,
            count,
            scratch,
            &mut chain[..types],
            &mut position[..types],
        )
    }
}
