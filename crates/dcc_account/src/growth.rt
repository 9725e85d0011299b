//! Memory that is taken before it is needed.

ghost use Rattle.std.specs.Prelude.{◌≡◌, ◌+◌, ◌-◌, ◌*◌, ◌≤◌, ◌<◌, ◌^◌, ◌++◌, [], length, IfOk, vec_len, vec_capacity, MatchOption, option_map};
ghost use Rattle.std.specs.Option.{ForSome};
ghost use Rattle.indexmap.specs.IndexMap as map;
ghost use Rattle.indexmap.specs.IndexSet as set;

use dcc_act::Journal;
use indexmap::{IndexMap, IndexSet};
use std::alloc::{AllocError, Global};
use std::hash::{Hash, RandomState};
use std::mem::replace;

/// The least room of acts, outcomes, entries and maps, so that the first few acts of an account move nothing.
pub(crate) const LEAST: usize = 4;

/// A larger vector, without items yet, if these have no room for `more` items more. It has room for all of them, for these and half as many
/// more, and for at least `least`. None if these have room. The only error is want of memory.
pub(crate) fn larger<T: Drop>(
    alloc: Global,
    items: &Vec<T>,
    more: usize,
    least: usize,
) -> Result<Option<Vec<T>>, AllocError>
    requires { vec_len items.now + more < 2 ^ 64 }
    ensures empty { IfOk result (λ larger. ForSome larger (λ larger. larger.items ≡ [])) }
    ensures room { IfOk result (λ larger. MatchOption larger (vec_len items.now + more ≤ vec_capacity items.now)
        (λ larger. vec_len items.now + more ≤ vec_capacity larger)) }
    ensures half { IfOk result (λ larger. ForSome larger (λ larger. 2 * vec_len items.now < 2 ^ 64 → 3 * vec_len items.now ≤ 2 * vec_capacity larger + 1)) }
{
    let count = items.len();
    if count + more <= items.capacity() {
        return Ok(None);
    }
    let wanted = grown(count).max(least);
    Ok(Some(Vec::with_capacity(alloc, wanted.max(count + more))?))
}

/// The room of a list that grows from so many items: half as many more, or as many more if there are 64; at most the greatest number. The room of a
/// short list lies in memory that is in use. That of a long list is no memory until it is written, and each growth leaves the old list's memory behind.
fn grown(count: usize) -> usize
    ensures { 2 * count < 2 ^ 64 → 3 * count ≤ 2 * result + 1 }
{
    let more = if count < 64 { count / 2 } else { count };
    count.saturating_add(more)
}

/// Moves the items into the larger vector, if there is any.
pub(crate) fn grow<T: Drop>(items: &mut Vec<T>, larger: Option<Vec<T>>)
    requires empty { ForSome larger (λ larger. larger.items ≡ []) }
    requires fits { ForSome larger (λ larger. vec_len items.old ≤ vec_capacity larger) }
    ensures items { items.new.items ≡ items.old.items }
    ensures capacity { MatchOption larger (vec_capacity items.new ≡ vec_capacity items.old)
        (λ larger. vec_capacity larger ≤ vec_capacity items.new) }
{
    if let Some(mut larger) = larger {
        larger.append(items).unwrap();
        *items = larger;
    }
}

/// Appends the items, for which there is room.
pub(crate) fn append<T: Drop>(items: &mut Vec<T>, mut more: Vec<T>)
    requires { vec_len items.old + vec_len more ≤ vec_capacity items.old }
    ensures { items.new.items ≡ items.old.items ++ more.items }
{
    items.append(&mut more).unwrap();
}

/// A larger journal, without acts yet, if this one has no room for `more` acts more. It has room for all of them, and
/// for these and half as many more. None if this one has room. The only error is want of memory.
pub(crate) fn larger_journal(
    alloc: Global,
    acts: &Journal,
    more: usize,
) -> Result<Option<Journal>, AllocError>
    requires { length acts.now.acts + more < 2 ^ 64 }
    ensures empty { IfOk result (λ larger. ForSome larger (λ larger. larger.acts ≡ [])) }
    ensures room { IfOk result (λ larger. MatchOption larger (more ≤ acts.now.spare)
        (λ larger. length acts.now.acts + more ≤ larger.spare)) }
    ensures half { IfOk result (λ larger. ForSome larger (λ larger. 2 * length acts.now.acts < 2 ^ 64 → 3 * length acts.now.acts ≤ 2 * larger.spare + 1)) }
{
    if more <= acts.spare() {
        return Ok(None);
    }
    let count = acts.len();
    let wanted = grown(count).max(LEAST);
    Ok(Some(Journal::with_room(alloc, wanted.max(count + more))?))
}

/// Moves the acts into the larger journal, if there is any.
pub(crate) fn grow_journal(acts: &mut Journal, larger: Option<Journal>)
    requires empty { ForSome larger (λ larger. larger.acts ≡ []) }
    requires room { MatchOption larger (1 ≤ acts.old.spare) (λ larger. length acts.old.acts + 1 ≤ larger.spare) }
    ensures acts { acts.new.acts ≡ acts.old.acts }
    ensures room { 1 ≤ acts.new.spare }
{
    if let Some(mut larger) = larger {
        larger.take_all(acts);
        // By a call: a journal that is let go in place is proved part by part.
        drop(replace(acts, larger));
    }
}

/// A larger map, without entries yet, if this one has no room for `more` entries more, 0 or 1. It has room for twice
/// these. None if this one has room. The only error is want of memory.
pub(crate) fn larger_map<K: Eq + Hash + Drop, V: Drop>(
    alloc: Global,
    entries: &IndexMap<K, V, RandomState>,
    more: usize,
) -> Result<Option<IndexMap<K, V, RandomState>>, AllocError>
    requires { more ≤ 1 }
    ensures empty { IfOk result (λ larger. ForSome larger map.IsEmpty) }
    ensures room { IfOk result (λ larger. MatchOption larger (more ≤ map.spare entries.now)
        (λ larger. map.index_map_len entries.now + more ≤ map.spare larger)) }
    ensures doubled { IfOk result (λ larger. ForSome larger (λ larger. 2 * map.index_map_len entries.now ≤ map.spare larger)) }
{
    let count = entries.len();
    if count + more <= entries.capacity() {
        return Ok(None);
    }
    let wanted = (count + more).max(count + count).max(LEAST);
    let hasher = *entries.hasher();
    Ok(Some(IndexMap::with_capacity_and_hasher(alloc, wanted, hasher)?))
}

/// Moves the entries into the larger map, if there is any.
pub(crate) fn grow_map<K: Eq + Hash + Drop, V: Drop>(
    entries: &mut IndexMap<K, V, RandomState>,
    larger: Option<IndexMap<K, V, RandomState>>,
)
    requires empty { ForSome larger map.IsEmpty }
    requires room { MatchOption larger (1 ≤ map.spare entries.old) (λ larger. map.index_map_len entries.old + 1 ≤ map.spare larger) }
    ensures entries { (k : K) → map.get K.eq entries.new k ≡ map.get K.eq entries.old k }
    ensures room { 1 ≤ map.spare entries.new }
{
    if let Some(mut larger) = larger {
        // The clause of `len` shows that no two keys are equal, so that each moves with its own value.
        let _count = entries.len();
        larger.append(entries).unwrap();
        *entries = larger;
    }
}

/// A larger set, without keys yet, if this one has no room for `more` keys more, 0 or 1. It has room for twice these.
/// None if this one has room. The only error is want of memory.
pub(crate) fn larger_set<T: Eq + Hash + Drop>(
    alloc: Global,
    keys: &IndexSet<T, RandomState>,
    more: usize,
) -> Result<Option<IndexSet<T, RandomState>>, AllocError>
    requires { more ≤ 1 }
    ensures empty { IfOk result (λ larger. ForSome larger set.IsEmpty) }
    ensures room { IfOk result (λ larger. MatchOption larger (more ≤ set.spare keys.now)
        (λ larger. set.index_set_len keys.now + more ≤ set.spare larger)) }
    ensures doubled { IfOk result (λ larger. ForSome larger (λ larger. 2 * set.index_set_len keys.now ≤ set.spare larger)) }
{
    let count = keys.len();
    if count + more <= keys.capacity() {
        return Ok(None);
    }
    let wanted = (count + more).max(count + count);
    let hasher = *keys.hasher();
    Ok(Some(IndexSet::with_capacity_and_hasher(alloc, wanted, hasher)?))
}

/// Moves the keys into the larger set, if there is any.
pub(crate) fn grow_set<T: Eq + Hash + Drop>(
    keys: &mut IndexSet<T, RandomState>,
    larger: Option<IndexSet<T, RandomState>>,
)
    requires empty { ForSome larger set.IsEmpty }
    requires room { MatchOption larger (1 ≤ set.spare keys.old) (λ larger. set.index_set_len keys.old + 1 ≤ set.spare larger) }
    ensures keys { (k : T) → set.contains T.eq keys.new k ≡ set.contains T.eq keys.old k }
    ensures room { 1 ≤ set.spare keys.new }
{
    if let Some(mut larger) = larger {
        larger.append(keys).unwrap();
        *keys = larger;
    }
}
