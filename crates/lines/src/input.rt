// The lines that the program reads.
ghost use Rattle.std.specs.Prelude.{◌≡◌, ℕ, ◌<◌, ◌≤◌, [], length, MatchOption};
ghost use Rattle.lines.specs.Input.{first_place, cut, number_in, key_in, put_in, line_in, or_bad};
ghost use Rattle.lines.specs.Lines.{GivesLine, unread};
ghost use Rattle.std.specs.Iterator.{at_most};
ghost use Rattle.lines.specs.Laws.{Cuts, Tells, ReadsBack};

// A command, with the key and the value as they stand in the line, or the seal of all before it.
#[derive(Clone, Copy, Debug, PartialEq, Eq)]
pub enum Line {
    Put(u32, u16),
    Drop(u32),
    Get(u32),
    Seal,
}

// The bytes are no such line.
#[derive(Clone, Copy, Debug, PartialEq, Eq)]
pub struct BadLine;

// The place of the first `wanted` among the bytes.
fn position(bytes: &[u8], wanted: u8) -> Option<usize>
    ensures { result ≡ first_place wanted bytes.now }
{
    bytes.iter().position(|b| *b == wanted)
}

// The first line, and what is left behind it; nothing at the end of the input.
pub fn split_line(bytes: &[u8]) -> Option<(&[u8], &[u8])>
    ensures answer { MatchOption result (bytes.now ≡ []) (λ p. (0 < length bytes.now) × ((p.0.now, p.1.now) ≡ cut bytes.now)) }
    ensures exact { MatchOption result (bytes.now ≡ []) (λ p. Cuts bytes.now p.0.now p.1.now) }
{
    if bytes.is_empty() {
        return None;
    }
    // A match: in a `map_or` the second arm would stand before the first.
    match position(bytes, b'\n') {
        Some(i) => Some((&bytes[..i], &bytes[i + 1..])),
        None => Some((bytes, &[])),
    }
}

// The lines of a text, from the first on, each as `split_line` cuts it off.
#[derive(Drop)]
pub struct Lines<'a> {
    left: &'a [u8],
}

impl<'a> Lines<'a> {
    pub fn new(text: &'a [u8]) -> Lines<'a>
        ensures { unread result ≡ text.now }
    {
        Lines { left: text }
    }
}

impl<'a> Iterator for Lines<'a> {
    type Item = &'a [u8];

    ghost next_gives = { GivesLine };

    ghost remaining = { λ s. at_most (length (unread s)) };

    fn next(&mut self) -> Option<&'a [u8]> {
        let (line, rest) = split_line(self.left)?;
        self.left = rest;
        Some(line)
    }
}

// The number that 1 to 10 digits write, below a limit. Where the limit is that of a type, the cast to it loses nothing, and
// `try_from` would only name a second error that never comes.
fn read_number(digits: &[u8], limit: u64) -> Result<u64, BadLine>
    ensures { result ≡ or_bad (number_in limit digits.now) }
{
    // This test and the next have no value in them that an `Option` could hold for `?`.
    if digits.is_empty() || digits.len() > 10 {
        return Err(BadLine);
    }
    let mut value: u64 = 0;
    for d in digits {
        if !d.is_ascii_digit() {
            return Err(BadLine);
        }
        value = 10 * value + u64::from(*d - b'0');
    }
    if value < limit {
        Ok(value)
    } else {
        Err(BadLine)
    }
}

fn read_key(digits: &[u8]) -> Result<u32, BadLine>
    ensures { result ≡ or_bad (key_in digits.now) }
{
    let key = read_number(digits, 0x1_0000_0000)?;
    Ok(key as u32)
}

// A key, one blank, and a value.
fn read_put(bytes: &[u8]) -> Result<Line, BadLine>
    ensures { result ≡ or_bad (put_in bytes.now) }
{
    let i = position(bytes, b' ').ok_or(BadLine)?;
    let key = read_key(&bytes[..i])?;
    let value = read_number(&bytes[i + 1..], 0x1_0000)?;
    Ok(Line::Put(key, value as u16))
}

// The line that the bytes are, by the first character.
#[tactic(auto, using(crate::proofs::Parsing::reads_back))]
pub fn parse(line: &[u8]) -> Result<Line, BadLine>
    ensures answer { result ≡ or_bad (line_in line.now) }
    ensures exact { Tells line.now result }
    ensures back { ReadsBack }
{
    match line {
        [b'+', rest @ ..] => read_put(rest),
        [b'-', rest @ ..] => Ok(Line::Drop(read_key(rest)?)),
        [b'?', rest @ ..] => Ok(Line::Get(read_key(rest)?)),
        [b'='] => Ok(Line::Seal),
        _ => Err(BadLine),
    }
}
