// FNV-1a, 32 bits.
ghost use Rattle.text.specs.Fnv.{fnv, mixed};
ghost use Rattle.std.specs.Prelude.{◌≡◌};

const BASIS: u32 = 2166136261;

const PRIME: u32 = 16777619;

// One byte more: xored in, then multiplied.
fn mix(sum: u32, byte: u8) -> u32
    ensures { result ≡ mixed sum byte }
{
    (sum ^ u32::from(byte)).wrapping_mul(PRIME)
}

// The sum of the bytes, from the basis xor the seed.
pub fn fnv1a(seed: u32, bytes: &[u8]) -> u32
    ensures { result ≡ fnv seed bytes.now }
{
    bytes.iter().fold(BASIS ^ seed, |sum, byte| mix(sum, *byte))
}
