//! Entries by key beside a common item, which stands for every key that has no entry.
#![tactic(auto)]

ghost use Rattle.std.specs.Prelude.{◌≡◌, ◌≤◌, ◌+◌, ◌++◌, ◌∷◌, length, false, OnOk, OnErr};
ghost use Rattle.std.specs.Prelude.{if◌then◌else◌};
ghost use Rattle.std.specs.BTreeMap.{is_at, insert_entry};
ghost use Rattle.std.specs.List.Sorted.{IsBinarySearchResult, IsSearchInRange};
ghost use Rattle.std.specs.Map.{remove_entry};
ghost use Rattle.std.specs.Ordering.{is_eq};
ghost use Rattle.ix_entries.specs.inside.Entries.{KeysAscend, AreProperEntries, item_at};
ghost use Rattle.ix_entries.specs.inside.Entries.{with_entry};

use std::alloc::AllocError;
use std::cmp::Ordering;

/// The item of the key, or the common item where the key has no entry. The keys ascend strictly.
pub fn at<'a, K: Ord, T>(entries: &'a [(K, T)], common: &'a T, key: &K) -> &'a T
    requires { KeysAscend K.cmp entries.now }
    ensures { result.now ≡ item_at K.cmp entries.now common.now key.now }
{
    match place_of(entries, key) {
        Ok(place) => &entries[place].1,
        Err(_) => common,
    }
}

/// Gives the key this item. An item equal to the common one leaves no entry; every other key keeps
/// its item. The keys ascend strictly and no item equals the common one, before and after. Where
/// memory runs out, the entries are as before.
pub fn put<K: Ord + Drop, T: Eq + Drop>(
    entries: &mut Vec<(K, T)>,
    common: &T,
    key: K,
    item: T,
) -> Result<(), AllocError>
    requires { AreProperEntries K.cmp T.eq common.now entries.old.items }
    ensures list { OnOk result
        (entries.new.items ≡ with_entry K.cmp T.eq common.now entries.old.items key item) }
    ensures proper { AreProperEntries K.cmp T.eq common.now entries.new.items }
    ensures item { OnOk result
        (item_at K.cmp entries.new.items common.now key
        ≡ (if T.eq item common.now then common.now else item)) }
    ensures others { OnOk result
        ((other : _)
        → is_eq (K.cmp key other) ≡ false
        → item_at K.cmp entries.new.items common.now other
        ≡ item_at K.cmp entries.old.items common.now other) }
    ensures unchanged { OnErr result (entries.new.items ≡ entries.old.items) }
{
    match place_of(entries.as_slice(), &key) {
        Ok(place) => {
            if item == *common {
                entries.remove(place);
            } else {
                entries[place].1 = item;
            }
            Ok(())
        }
        Err(place) => {
            if item != *common {
                entries.insert(place, (key, item))?;
            }
            Ok(())
        }
    }
}

/// The entries before the key's place and those behind it, without the key's own entry. The keys
/// ascend strictly.
pub fn around<'a, K: Ord, T>(entries: &'a [(K, T)], key: &K) -> (&'a [(K, T)], &'a [(K, T)])
    requires { KeysAscend K.cmp entries.now }
    ensures count { length result.0.now + length result.1.now ≤ length entries.now }
    ensures without { result.0.now ++ result.1.now
        ≡ remove_entry (is_at (K.cmp key.now)) entries.now }
    ensures with { ((other : _) → K.cmp key.now other ≡ Ordering.Equal → other ≡ key.now)
        → (item : _)
        → result.0.now ++ (key.now, item) ∷ result.1.now
        ≡ insert_entry K.cmp entries.now key.now item }
{
    match place_of(entries, key) {
        Ok(place) => (&entries[..place], &entries[place + 1..]),
        Err(place) => (&entries[..place], &entries[place..]),
    }
}

/// `Ok` is the place of the key's entry, and `Err` the place where it would stand.
fn place_of<K: Ord, T>(entries: &[(K, T)], key: &K) -> Result<usize, usize>
    ensures bound { IsSearchInRange result (length entries.now) }
    ensures position { IsBinarySearchResult (λ entry. K.cmp entry.0 key.now) entries.now result }
{
    entries.binary_search_by(|entry| entry.0.cmp(key))
}
