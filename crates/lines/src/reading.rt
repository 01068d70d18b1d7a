// Lines read: on a text and a place in it, the key of a `key=value` line, where the line ends, and what a value means.
// Every function answers every text and every place. The reader that goes from line to line is in line_reader, the lines of a plan in plan_text.
ghost use Rattle.std.specs.Prelude.{◌≡◌, ◌+◌, ◌≤◌, ◌==◌, length, take, drop, position};
ghost use Rattle.lines.specs.Lines.{line_length, begins, number, number_from};
ghost use Rattle.lines.specs.Reading.{line_here};

// Where a line's value stands: its first byte, its length, and the first byte of the next line.
#[derive(Clone, Copy, PartialEq, Eq)]
pub struct ValueAt {
    pub start: usize,
    pub len: usize,
    pub next: usize,
}

// How many bytes stand before the first LF.
#[inline(always)]
pub fn first_lf(s: &[u8]) -> Option<usize>
    ensures { result ≡ position (λ b. b == 10) s.now }
{
    s.iter().position(|&b| b == b'\n')
}

// The place of the LF that closes the line at `at`; the end of the text where none does. A place at or past the end is its own answer.
pub fn line_end(text: &[u8], at: usize) -> usize
    ensures { result ≡ at + line_length (drop at text.now) }
{
    let rest = &text[at.min(text.len())..];
    at + first_lf(rest).unwrap_or(rest.len())
}

// The line at `at` begins with the key. No more of the line is looked at than the key is long.
// Inlined, as all that calls it with a key, so that the key is a constant and its bytes are compared in place.
#[inline(always)]
pub fn key_at(text: &[u8], at: usize, key: &[u8]) -> bool
    ensures { result ≡ begins key.now (line_here text.now at) }
{
    key == value(text, at, key.len()) && !key.iter().any(|&b| b == b'\n')
}

// The part of the caller's text that is `len` bytes from `start` on; past the end it is the shorter part, or none.
pub fn value<'a>(text: &'a [u8], start: usize, len: usize) -> &'a [u8]
    ensures { result.now ≡ take len (drop start text.now) }
{
    let rest = &text[start.min(text.len())..];
    &rest[..len.min(rest.len())]
}

// The number that at most four digits make.
#[inline(always)]
#[tactic(auto, using(crate::proofs::Steps::digits_done, crate::proofs::Steps::digits_on, crate::proofs::Steps::digits_low, crate::proofs::Steps::digits_high, crate::proofs::Steps::room))]
fn digits_number(s: &[u8]) -> Option<u16>
    requires { length s.now ≤ 4 }
    ensures { result ≡ number_from 0 s.now }
{
    let mut n = 0;
    for &b in s {
        if !b.is_ascii_digit() {
            return None;
        }
        n = n * 10 + u16::from(b - b'0');
    }
    Some(n)
}

// The number that the value is: 1 to 4 digits and no leading zero.
#[tactic(auto, using(crate::specs::ReadingLaws::number_long, crate::specs::ReadingLaws::number_none, crate::specs::ReadingLaws::number_zero, crate::specs::ReadingLaws::number_one, crate::specs::ReadingLaws::number_more))]
#[inline(always)]
pub fn read_number(s: &[u8]) -> Option<u16>
    ensures { result ≡ number s.now }
{
    match s {
        [] | [b'0', _, ..] => None,
        _ if s.len() > 4 => None,
        _ => digits_number(s),
    }
}
