// Lines written: pieces of text put into a lent output at a place. A piece that has no room is not written at all.
// Every function answers every output and every place: the place after the piece, or the same place where it had no room.
ghost use Rattle.std.specs.Prelude.{◌≡◌, ◌+◌, ◌<◌, ◌≤◌, length};
ghost use Rattle.words.specs.Words.{◌≤?◌};
ghost use Rattle.lines.specs.Lines.{digits};
ghost use Rattle.lines.specs.Writing.{put_fit, place_after, number_line_of};

// A piece of `len` bytes has room at `at`. No sum here can wrap.
fn has_room(room: usize, at: usize, len: usize) -> bool
    ensures { result ≡ (at + len ≤? room) }
{
    at <= room && len <= room - at
}

// All of w at `at`, byte by byte: a short piece of a known length becomes a store or two, where a copy of slices asks first
// whether the two overlap.
#[tactic(auto, using(crate::specs::WritingLaws::put_refused, crate::specs::WritingLaws::after_refused, crate::specs::WritingLaws::after_fits))]
pub fn put_bytes(out: &mut [u8], at: usize, w: &[u8]) -> usize
    ensures value { result ≡ place_after at w.now out.old }
    ensures out_after { out.new ≡ put_fit at w.now out.old }
{
    if !has_room(out.len(), at, w.len()) {
        return at;
    }
    for (i, b) in w.iter().enumerate() {
        out[at + i] = *b;
    }
    at + w.len()
}

// How many digits n has.
#[tactic(auto, using(crate::specs::NumberLaws::digits_one, crate::specs::WritingLaws::digits_shorter))]
pub fn number_len(n: u32) -> usize
    ensures { result ≡ length (digits n) }
{
    let mut rest = n;
    let mut len: usize = 1;
    while rest >= 10 {
        rest /= 10;
        len += 1;
    }
    len
}

// The byte of a digit.
fn digit(d: u32) -> u8
    requires { d < 10 }
    ensures { result ≡ 48 + d }
{
    b'0' + d as u8
}

// The digits of n at `at`, which has room for them, from the last to the first.
#[tactic(auto, using(crate::specs::WritingLaws::after_fits, crate::specs::WritingLaws::digits_bound, crate::specs::WritingLaws::tail_room))]
fn put_digits(out: &mut [u8], at: usize, len: usize, n: u32) -> usize
    requires long { len ≡ length (digits n) }
    requires room { at + len ≤ length out.old }
    ensures value { result ≡ place_after at (digits n) out.old }
    ensures out_after { out.new ≡ put_fit at (digits n) out.old }
{
    let mut rest = n;
    for i in (at + 1..at + len).rev() {
        out[i] = digit(rest % 10);
        rest /= 10;
    }
    out[at] = digit(rest);
    at + len
}

// The digits of n at `at`.
#[tactic(auto, using(crate::specs::WritingLaws::put_refused, crate::specs::WritingLaws::after_refused))]
pub fn put_number(out: &mut [u8], at: usize, n: u32) -> usize
    ensures value { result ≡ place_after at (digits n) out.old }
    ensures out_after { out.new ≡ put_fit at (digits n) out.old }
{
    let len = number_len(n);
    if !has_room(out.len(), at, len) {
        return at;
    }
    put_digits(out, at, len, n)
}

// A whole line: the key, the digits of n, LF.
#[tactic(auto, using(crate::specs::WritingLaws::put_refused, crate::specs::WritingLaws::after_refused, crate::specs::WritingLaws::put_fits, crate::specs::WritingLaws::after_fits, crate::specs::WritingLaws::fit_then, crate::specs::WritingLaws::digits_bound, crate::specs::WritingLaws::line_length_lem, crate::specs::WritingLaws::key_room))]
pub fn put_line(out: &mut [u8], at: usize, key: &[u8], n: u32) -> usize
    ensures value { result ≡ place_after at (number_line_of key.now n) out.old }
    ensures out_after { out.new ≡ put_fit at (number_line_of key.now n) out.old }
{
    let digits = number_len(n);
    let len = key.len() + digits + 1;
    if !has_room(out.len(), at, len) {
        return at;
    }
    let value = put_bytes(out, at, key);
    let end = put_digits(out, value, digits, n);
    put_bytes(out, end, b"\n")
}
