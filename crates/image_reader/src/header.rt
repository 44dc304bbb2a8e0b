// Block 0.
ghost use Rattle.image.specs.Opened.{byte, count_of, seed_of, wrong_count, breaks, header_check};
ghost use Rattle.maps.specs.Maps.{kinds_of};
ghost use Rattle.std.specs.Prelude.{◌≡◌};

use cells::ring::power_of;
use image::fault::ImageFault;
use kinds::key::Key;
use kinds::value::Value;

// A byte past the end counts as zero.
pub(crate) fn byte_at(bytes: &[u8], i: usize) -> u8
    ensures { result ≡ byte bytes.now i }
{
    bytes.get(i).copied().unwrap_or(0)
}

pub(crate) fn count_at(bytes: &[u8]) -> usize
    ensures { result ≡ count_of bytes.now }
{
    usize::from(u16::from_be_bytes([byte_at(bytes, 4), byte_at(bytes, 5)]))
}

pub(crate) fn seed_at(bytes: &[u8]) -> u32
    ensures { result ≡ seed_of bytes.now }
{
    u32::from_be_bytes([
        byte_at(bytes, 8),
        byte_at(bytes, 9),
        byte_at(bytes, 10),
        byte_at(bytes, 11),
    ])
}

// A count above 768, or one that demands another capacity.
fn is_wrong_count(count: usize, power: u8) -> bool
    ensures { result ≡ wrong_count count power }
{
    count > 768 || power_of(count) != power
}

// Whether byte `i` breaks its rule.
fn is_broken<K: Key, V: Value>(bytes: &[u8], i: usize) -> bool
    ensures { result ≡ breaks (kinds_of K.Key.kind V.Value.kind) bytes.now i }
{
    let b = byte_at(bytes, i);
    match i {
        0 => b != 1,
        1 => b != K::kind_number(),
        2 => b != V::kind_number(),
        3 => !(3..=10).contains(&b),
        4 => is_wrong_count(count_at(bytes), byte_at(bytes, 3)),
        5 | 8..=11 => false,
        _ => b != 0,
    }
}

pub(crate) fn check_header<K: Key, V: Value, F>(bytes: &[u8]) -> Result<(), ImageFault<F>>
    ensures { result ≡ header_check (kinds_of K.Key.kind V.Value.kind) bytes.now }
{
    // A match: `map_or` would ask of callers that a fault can be dropped, and `map_or_else` takes two closures for two arms.
    match (0..32).find(|&i| is_broken::<K, V>(bytes, i)) {
        Some(i) => Err(ImageFault::Header(i)),
        None => Ok(()),
    }
}
