//! A place or none, in four bytes, and the next place in a row of them.
ghost use Rattle.std.specs.Prelude.{◌≡◌, ◌≢◌, ℕ, ◌<◌, ◌≤◌, Some, None, IfSome, is_some, not};
ghost use Rattle.std.specs.Prelude.{length, true};
ghost use Rattle.sim_queue.specs.inside.Sparse.{index_at};

use std::marker::Model;

/// A place below 2^32 - 1, or none.
#[derive(Clone, Copy)]
pub(crate) struct Link {
    // One more than the place, or 0 for none.
    code: u32,
}

impl Model for Link {
    ghost use Rattle.std.specs.Prelude.{ℕ, Option};
    ghost use Rattle.sim_queue.specs.inside.Link.{place_of, code_of, same_code};

    ghost Value = { Option ℕ };

    ghost view = { λ l. place_of l.code };

    ghost inverse = { λ p. record { code = code_of p } };

    ghost inverse_ok = { λ l h i. record { code = same_code l.code i } };
}

impl Link {
    /// Returns no place.
    #[inline(always)]
    pub(crate) fn none() -> Link
        ensures { result ≡ None }
    {
        Link { code: 0 }
    }

    /// Returns this place.
    #[inline(always)]
    pub(crate) fn to(place: u32) -> Link
        requires { place < 4294967295 }
        ensures { result ≡ Some place }
    {
        Link { code: place + 1 }
    }

    /// Returns the place, if there is one.
    #[inline(always)]
    pub(crate) fn get(&self) -> Option<u32>
        ensures place { result ≡ self.now }
        ensures small { IfSome result (λ p. p < 4294967295) }
    {
        if self.code == 0 {
            return None;
        }
        Some(self.code - 1)
    }

    /// Returns whether there is no place.
    #[inline(always)]
    pub(crate) fn is_none(&self) -> bool
        ensures { is_some self.now ≡ not result }
    {
        self.code == 0
    }
}

/// The number of links in a block.
const BLOCK: usize = 8;

// Returns whether none of the links of a block has a place. Looks at all of them, so that the
// compiler can do it in a few instructions.
#[inline(always)]
fn are_none(links: &[Link]) -> bool
    requires { length links.now ≡ 8 }
    ensures none { result ≡ true → (i : ℕ) → i < 8 → index_at links.now i ≡ None }
    ensures some { ((i : ℕ) → i < 8 → index_at links.now i ≡ None) → result ≡ true }
{
    links[0].is_none()
        & links[1].is_none()
        & links[2].is_none()
        & links[3].is_none()
        & links[4].is_none()
        & links[5].is_none()
        & links[6].is_none()
        & links[7].is_none()
}

// Returns whether none of the links of two blocks has a place.
#[inline(always)]
fn are_none_of_two(links: &[Link]) -> bool
    requires { length links.now ≡ 16 }
    ensures none { result ≡ true → (i : ℕ) → i < 16 → index_at links.now i ≡ None }
    ensures some { ((i : ℕ) → i < 16 → index_at links.now i ≡ None) → result ≡ true }
{
    are_none(&links[..BLOCK]) & are_none(&links[BLOCK..])
}

/// Skips links without places, two blocks in one go, from `from` on. Returns the first link that it
/// does not skip.
pub(crate) fn skip_blocks(links: &[Link], from: usize) -> usize
    requires { from ≤ length links.now }
    ensures order { from ≤ result }
    ensures within { result ≤ length links.now }
    ensures none { (i : ℕ) → from ≤ i → i < result → index_at links.now i ≡ None }
{
    let mut at = from;
    while 2 * BLOCK <= links.len() - at && are_none_of_two(&links[at..at + 2 * BLOCK]) {
        at += 2 * BLOCK;
    }
    at
}

/// Returns the first link from `from` on that has a place, or the number of links. Looks at four
/// links in each round.
#[inline(always)]
pub(crate) fn next_place(links: &[Link], from: usize) -> usize
    requires { from ≤ length links.now }
    ensures order { from ≤ result }
    ensures within { result ≤ length links.now }
    ensures none { (i : ℕ) → from ≤ i → i < result → index_at links.now i ≡ None }
    ensures there { result < length links.now → index_at links.now result ≢ None }
{
    let mut at = from;
    while 4 <= links.len() - at {
        if !links[at].is_none() {
            return at;
        }
        if !links[at + 1].is_none() {
            return at + 1;
        }
        if !links[at + 2].is_none() {
            return at + 2;
        }
        if !links[at + 3].is_none() {
            return at + 3;
        }
        at += 4;
    }
    next_of_few(links, at)
}

// Returns the same. Looks at one link after another.
#[inline(never)]
fn next_of_few(links: &[Link], from: usize) -> usize
    requires { from ≤ length links.now }
    ensures order { from ≤ result }
    ensures within { result ≤ length links.now }
    ensures none { (i : ℕ) → from ≤ i → i < result → index_at links.now i ≡ None }
    ensures there { result < length links.now → index_at links.now result ≢ None }
{
    let mut at = from;
    while at < links.len() && links[at].is_none() {
        at += 1;
    }
    at
}
