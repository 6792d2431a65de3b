ghost use Rattle.std.specs.Prelude.{◌≡◌, ℕ, ◌+◌, ◌<◌, ◌≤◌, length, true, false};
ghost use Rattle.index_lists.specs.Words.{count, IsOnce};
ghost use Rattle.index_lists.specs.Lists.{list_at, with_list};
ghost use Rattle.range_locks.specs.Walks.{lesser, one_such, least_in, hit_at, from_at, first_page, is_ahead, place_for, inserted, IsRising};

use crate::range::{Range, hits};
use index_lists::Links;

/// The lesser of two, where there is one.
pub(crate) fn lesser(a: Option<u32>, b: Option<u32>) -> Option<u32>
    ensures { result ≡ lesser a b }
{
    match (a, b) {
        (None, _) => b,
        (_, None) => a,
        (Some(x), Some(y)) => Some(x.min(y)),
    }
}

/// The call, where a test holds.
fn such(holds: bool, call: u32) -> Option<u32>
    ensures { result ≡ one_such holds call }
{
    if holds { Some(call) } else { None }
}

/// The first page of what a call holds.
fn first_page(held: &Option<Range>) -> u32
    ensures { result ≡ first_page held.now }
{
    match held {
        Some(range) => range.from,
        None => 0,
    }
}

/// The least call of the list whose range conflicts with this one. The list is by rising first page, so the walk ends
/// at the first range that begins behind it.
pub(crate) fn least_hit(
    links: &Links,
    held: &[Option<Range>],
    list: u32,
    range: &Range,
) -> Option<u32>
    requires list { list < length links.now.lists }
    requires calls { (c : ℕ) → 0 < count c (list_at links.now list) → c < length held.now }
    requires once { IsOnce (list_at links.now list) }
    requires rising { IsRising held.now (list_at links.now list) }
    ensures { result ≡ least_in (hit_at range.now held.now) (list_at links.now list) }
{
    let mut least = None;
    let mut at = links.front(list);
    while let Some(call) = at {
        let other = &held[call as usize];
        if range.to <= first_page(other) {
            return least;
        }
        least = lesser(least, such(hits(range, other), call));
        at = links.next(list, call);
    }
    least
}

/// The least call of the list.
pub(crate) fn least_node(links: &Links, list: u32) -> Option<u32>
    requires list { list < length links.now.lists }
    requires once { IsOnce (list_at links.now list) }
    ensures { result ≡ least_in (λ _. true) (list_at links.now list) }
{
    let mut least = None;
    let mut at = links.front(list);
    while let Some(call) = at {
        least = lesser(least, Some(call));
        at = links.next(list, call);
    }
    least
}

/// Whether a call comes before another one, by first page and call.
fn is_ahead(held: &[Option<Range>], call: u32, other: u32) -> bool
    requires call { call < length held.now }
    requires other { other < length held.now }
    ensures { result ≡ is_ahead held.now call other }
{
    let here = first_page(&held[call as usize]);
    let there = first_page(&held[other as usize]);
    here < there || (here == there && call < other)
}

/// The first call of the list that comes after this one.
fn place_for(links: &Links, held: &[Option<Range>], list: u32, call: u32) -> Option<u32>
    requires list { list < length links.now.lists }
    requires call { call < length held.now }
    requires calls { (c : ℕ) → 0 < count c (list_at links.now list) → c < length held.now }
    requires once { IsOnce (list_at links.now list) }
    ensures { result ≡ place_for held.now call (list_at links.now list) }
{
    let mut at = links.front(list);
    while let Some(other) = at {
        if is_ahead(held, call, other) {
            return at;
        }
        at = links.next(list, other);
    }
    None
}

/// Puts a call into its place in the list.
pub(crate) fn insert(links: &mut Links, held: &[Option<Range>], list: u32, call: u32)
    requires list { list < length links.old.lists }
    requires node { call < links.old.nodes }
    requires absent { count call (list_at links.old list) ≡ 0 }
    requires call { call < length held.now }
    requires calls { (c : ℕ) → 0 < count c (list_at links.old list) → c < length held.now }
    requires once { IsOnce (list_at links.old list) }
    ensures { links.new ≡ with_list links.old list (inserted held.now call (list_at links.old list)) }
{
    match place_for(links, held, list, call) {
        Some(place) => links.insert_before(list, place, call),
        None => links.push_back(list, call),
    }
}
