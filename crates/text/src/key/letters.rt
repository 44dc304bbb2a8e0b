// The letter rule of text keys.
ghost use Rattle.text.specs.Letters.{is_allowed, keeps};
ghost use Rattle.std.specs.List.{list_all, position};
ghost use Rattle.std.specs.Prelude.{◌≡◌, not};

// Whether the byte may be given.
fn allowed(byte: u8) -> bool
    ensures { result ≡ is_allowed byte }
{
    matches!(byte, b' '..=b'~')
}

// The index of the first byte that may not be given.
pub(crate) fn first_not_allowed(bytes: &[u8]) -> Option<usize>
    ensures { result ≡ position (λ b. not (is_allowed b)) bytes.now }
{
    bytes.iter().position(|byte| !allowed(*byte))
}

// Whether a key keeps the byte: allowed, and no small letter.
fn keep(byte: u8) -> bool
    ensures { result ≡ keeps byte }
{
    allowed(byte) && !byte.is_ascii_lowercase()
}

pub(crate) fn keep_all(bytes: &[u8]) -> bool
    ensures { result ≡ list_all keeps bytes.now }
{
    bytes.iter().all(|byte| keep(*byte))
}
