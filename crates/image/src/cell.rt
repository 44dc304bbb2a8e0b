// Lent cells, which hold the plain rows of keys.
ghost use Rattle.image.specs.Rows.{keyed};
ghost use Rattle.maps.specs.Maps.{kinds_of};
ghost use Rattle.std.specs.Prelude.{◌≡◌};

use kinds::key::Key;
use kinds::record::Record;
use kinds::value::Value;

// The record in a lent cell. A row that is no key's counts as none.
pub fn record_of<K: Key, V: Value>(cell: Option<Record<K::Row, V>>) -> Option<Record<K, V>>
    ensures { result ≡ keyed (kinds_of K.Key.kind V.Value.kind) cell }
{
    let Record { key, value } = cell?;
    let key = K::from_row(key)?;
    Some(Record { key, value })
}
