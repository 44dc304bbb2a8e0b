// Keys of rows: rows that are no key's come before all others, with the hash 0.
ghost use Rattle.std.specs.Prelude.{◌≡◌, ◌<◌, ◌≤◌};
ghost use Rattle.layout.specs.Capacity.{home_at};
ghost use Rattle.layout.specs.Views.{before_some, hash_some};
ghost use Rattle.std.specs.Ordering.{is_lt};

use crate::ring::home_of;
use kinds::key::Key;

// Whether one key comes strictly before another.
pub fn is_before<K: Key>(a: Option<K>, b: Option<K>) -> bool
    ensures { result ≡ before_some (λ j k. is_lt (K.Key.kind.order j k)) a b }
{
    match (a, b) {
        (None, b) => b.is_some(),
        (Some(_), None) => false,
        (Some(j), Some(k)) => j.compare(&k).is_lt(),
    }
}

// The home of a key among at most 1024 cells: a clause that its callers show, as at `home_of`.
pub fn home<K: Key>(cells: usize, seed: u32, key: Option<K>) -> usize
    requires { cells ≤ 1024 }
    ensures { result ≡ home_at cells (hash_some (K.Key.kind.hash seed) key) }
{
    home_of(cells, key.map_or(0, |k| k.hash(seed)))
}
