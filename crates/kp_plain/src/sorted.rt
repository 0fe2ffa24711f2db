ghost use Rattle.std.specs.Prelude.{◌≡◌, ◌<◌, not, IsTrue, OnOk, OnErr};
ghost use Rattle.std.specs.Vec.{vec_len, vec_capacity};
ghost use Rattle.std.specs.Option.{option_copied};
ghost use Rattle.std.specs.FinMap.{find, put, is_sorted};
ghost use Rattle.std.specs.FinMap.Entries.{where_key};
ghost use Rattle.std.specs.Ordering.{eq_by_cmp};
ghost use Rattle.kp_model.specs.State.{path_cmp};
ghost use Rattle.kp_plain.specs.Place.{StandsFor, place_in};

use kp_model::{NoMemory, Text};
use std::cmp::Ordering;

/// Where a key is, or where it would go.
pub enum Place {
    At(usize),
    Before(usize),
}

// The place that a search tells.
fn told(found: Result<usize, usize>) -> Place
    ensures { result ≡ place_in found }
{
    match found {
        Ok(i) => Place::At(i),
        Err(i) => Place::Before(i),
    }
}

/// Where the key stands among entries in the order of their keys. Costs a binary search, as the calls below do.
pub fn place_of<K: Ord, V>(items: &[(K, V)], key: &K) -> Place
    requires { IsTrue (is_sorted K.cmp items.now) }
    ensures { StandsFor K.cmp key.now items.now result }
{
    told(items.binary_search_by(|item| item.0.cmp(key)))
}

/// Where a path stands among entries in the order of their paths.
pub fn place_of_path<V>(items: &[(Text, V)], path: &str) -> Place
    requires { IsTrue (is_sorted path_cmp items.now) }
    ensures { StandsFor path_cmp path.now items.now result }
{
    told(items.binary_search_by(|item| item.0.as_str().cmp(path)))
}

/// What the entries have at a key.
pub fn find_in<'a, K: Ord, V>(items: &'a [(K, V)], key: &K) -> Option<&'a V>
    requires { IsTrue (is_sorted K.cmp items.now) }
    ensures { option_copied result ≡ find K.cmp key.now items.now }
{
    match place_of(items, key) {
        Place::At(i) => Some(&items[i].1),
        Place::Before(_) => None,
    }
}

/// What the entries have at a path.
pub fn find_path<'a, V>(items: &'a [(Text, V)], path: &str) -> Option<&'a V>
    requires { IsTrue (is_sorted path_cmp items.now) }
    ensures { option_copied result ≡ find path_cmp path.now items.now }
{
    match place_of_path(items, path) {
        Place::At(i) => Some(&items[i].1),
        Place::Before(_) => None,
    }
}

/// Sets the value of a key. There is room for one more.
pub fn put_reserved<K: Ord + Drop, V: Drop>(items: &mut Vec<(K, V)>, key: K, value: V)
    requires sorted { IsTrue (is_sorted K.cmp items.old.items) }
    requires room { vec_len items.old < vec_capacity items.old }
    ensures { items.new.items ≡ put K.cmp key value items.old.items }
{
    match place_of(items.as_slice(), &key) {
        Place::At(i) => items[i].1 = value,
        Place::Before(i) => {
            let _ = items.insert(i, (key, value));
        }
    }
}

/// Sets the value of a key. Without memory the entries stay as they were.
pub fn put_in<K: Ord + Drop, V: Drop>(
    items: &mut Vec<(K, V)>,
    key: K,
    value: V,
) -> Result<(), NoMemory>
    requires { IsTrue (is_sorted K.cmp items.old.items) }
    ensures ok { OnOk result (items.new.items ≡ put K.cmp key value items.old.items) }
    ensures err { OnErr result (items.new.items ≡ items.old.items) }
{
    items.reserve(1)?;
    put_reserved(items, key, value);
    Ok(())
}

/// Removes the entry of a key, where there is one. Takes no memory.
pub fn remove_from<K: Ord + Drop, V: Drop>(items: &mut Vec<(K, V)>, key: &K)
    ensures { items.new.items ≡ where_key K.cmp (λ x. not (eq_by_cmp K.cmp key.now x)) items.old.items }
{
    items.retain(|item| key.cmp(&item.0) != Ordering::Equal);
}
