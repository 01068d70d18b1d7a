// The line reader: it holds the caller's text and its place, and goes from line to line. Each function over it leaves the work to one
// on slice and number.
// What a line means is in lines and above.
// What takes a key is inlined, so that the key is a constant in each use.
#![tactic(auto)]

ghost use Rattle.std.specs.Prelude.{◌≡◌, take, drop};
ghost use Rattle.lines.specs.Lines.{number};
ghost use Rattle.lines.specs.Reading.{value_at, field_at};

use lines::reading::{ValueAt, first_lf, key_at, read_number};

// A reader of the caller's text at a place in it.
#[derive(Clone, Copy)]
pub struct LineReader<'a> {
    pub text: &'a [u8],
    pub at: usize,
}

// The work: where the value of the line at `at` stands. The key goes first: the LF is looked for only behind it.
#[tactic(auto, using(lines::specs::ReadingLaws::value_other, lines::specs::ReadingLaws::key_fits, lines::specs::ReadingLaws::value_unclosed, lines::specs::ReadingLaws::value_found))]
#[inline(always)]
fn value_at(text: &[u8], at: usize, key: &[u8]) -> Option<ValueAt>
    ensures { result ≡ value_at text.now at key.now }
{
    if !key_at(text, at, key) {
        return None;
    }
    let start = at + key.len();
    let len = first_lf(text.get(start..)?)?;
    Some(ValueAt {
        start,
        len,
        next: start + len + 1,
    })
}

// A reader at a place of the caller's text.
pub fn reader_at(text: &[u8], at: usize) -> LineReader<'_>
    ensures { (result.text ≡ text.entry) × (result.at ≡ at) }
{
    LineReader { text, at }
}

impl<'a> LineReader<'a> {
    // The reader's place.
    pub fn place(self) -> usize
        ensures { result ≡ self.entry.at }
    {
        self.at
    }

    // The line at the reader's place: where its value stands, or nothing where it is missing, is not closed or has another key.
    #[inline(always)]
    pub fn look(self, key: &[u8]) -> Option<ValueAt>
        ensures { result ≡ value_at self.entry.text.now self.entry.at key.now }
    {
        value_at(self.text, self.at, key)
    }

    // The reader of the same text at another place, as past a line.
    pub fn moved(self, at: usize) -> LineReader<'a>
        ensures { (result.text ≡ self.entry.text) × (result.at ≡ at) }
    {
        LineReader { at, ..self }
    }

    // A part of the text that the reader holds, as the value of a line.
    pub fn part(self, start: usize, len: usize) -> &'a [u8]
        ensures { result.now ≡ take len (drop start self.entry.text.now) }
    {
        lines::reading::value(self.text, start, len)
    }
}

// One line walked: a reader at `at` looks at its line, moves past the LF, and its place is where the next line starts.
// Nothing where the line is missing, is not closed or has another key.
#[inline(always)]
pub fn find_value(text: &[u8], at: usize, key: &[u8]) -> Option<ValueAt>
    ensures { result ≡ value_at text.now at key.now }
{
    let reader = reader_at(text, at);
    let seen = reader.look(key)?;
    let next = reader.moved(seen.next).place();
    Some(ValueAt { next, ..seen })
}

// A part of the caller's text, by way of the reader at its start.
pub fn part_from(text: &[u8], start: usize, len: usize) -> &[u8]
    ensures { result.now ≡ take len (drop start text.now) }
{
    reader_at(text, start).part(start, len)
}

// The number on the line at `at`, which has the key.
#[tactic(auto, using(lines::specs::ReadingLaws::field_steps))]
#[inline(always)]
pub fn number_field(text: &[u8], at: usize, key: &[u8]) -> Option<(u16, usize)>
    ensures { result ≡ field_at number text.now at key.now }
{
    let value = find_value(text, at, key)?;
    let number = read_number(part_from(text, value.start, value.len))?;
    Some((number, value.next))
}
