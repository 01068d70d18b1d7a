// Plan texts: the limits, what is not of the form, and a small plan cut at every byte.
ghost use Rattle.std.specs.Prelude.{◌≤◌, length};

use super::print;
use std::fs::File;
use std::io::{self, Eprint, Read};
use std::rt::Files;

// How the text is answered.
fn text(rt: &impl Print, name: &str, s: &[u8]) -> io::Result<()> {
    print::answer(rt, name, plan_text::reader::read_plan(s).answer)
}

// How each text is answered, after its name.
fn texts(rt: &impl Print, cases: &[(&str, &str)]) -> io::Result<()> {
    for (name, s) in cases {
        text(rt, name, s.as_bytes())?;
    }
    Ok(())
}

// The file's bytes from the start of the buffer on, until it is full, the file ends or a read fails: how many they are.
fn read_full<R: Read>(input: &mut R, buffer: &mut [u8]) -> usize
    ensures { result ≤ length buffer.new }
{
    let mut n = 0;
    while let Ok(more @ 1..) = input.read(&mut buffer[n..]) {
        n += more;
    }
    n
}

// How a file of data/ is answered. One that cannot be opened is said on standard error, and the other cases go on.
// Never inlined: its buffer is off the stack when the runs are tried.
#[inline(never)]
fn file(rt: &(impl Files + Print + Eprint), path: &str) -> io::Result<()> {
    let mut input = match File::open(rt, path) {
        Ok(input) => input,
        Err(error) => {
            let _ = eprintln!(rt; "{path}: {error}");
            return Ok(());
        }
    };
    let mut buffer = [0u8; 65536];
    let n = read_full(&mut input, &mut buffer);
    text(rt, path, &buffer[..n])
}

pub(crate) fn limits(rt: &(impl Files + Print + Eprint)) -> io::Result<()> {
    texts(
        rt,
        &[
            ("empty text", ""),
            ("slots=08", "slots=08\n"),
            ("slots=0", "slots=0\njobs=1\n"),
            ("slots=513", "slots=513\n"),
            ("slots=513, no LF", "slots=513"),
            ("slots=513, then rubbish", "slots=513\nrubbish"),
            ("jobs=0", "slots=4\njobs=0\n"),
            ("jobs=33", "slots=4\njobs=33\n"),
            ("jobs=33, then rubbish", "slots=4\njobs=33\nrubbish\n"),
        ],
    )?;
    for path in ["largest.plan", "largest_and_more.plan", "digits.plan"] {
        file(rt, path)?;
    }
    Ok(())
}

pub(crate) fn bad_numbers(rt: &impl Print) -> io::Result<()> {
    texts(
        rt,
        &[
            ("five digits", "slots=00008\n"),
            ("five digits, no zero", "slots=10000\n"),
            ("plus sign", "slots=+8\n"),
            ("minus sign", "slots=-8\n"),
            ("blank before", "slots= 8\n"),
            ("blank after", "slots=8 \n"),
            ("empty value", "slots=\n"),
            ("letter", "slots=8a\n"),
            ("zero twice", "slots=4\njobs=00\n"),
        ],
    )
}

pub(crate) fn bad_lines(rt: &impl Print) -> io::Result<()> {
    texts(
        rt,
        &[
            ("CRLF", "slots=8\r\njobs=2\r\n"),
            ("NUL", "slots=8\n\0jobs=2\n"),
            ("wrong key", "slots=8\njob=2\n"),
            ("repeated key", "slots=8\nslots=8\n"),
            ("key in capitals", "SLOTS=8\n"),
            ("no equals sign", "slots8\n"),
            ("empty line first", "\nslots=8\n"),
            ("empty line between", "slots=8\n\njobs=2\n"),
            ("level in lower case", "slots=1\njobs=1\nlevel=hi\n"),
            ("level of one letter", "slots=1\njobs=1\nlevel=H\n"),
            (
                "a line missing",
                "slots=1\njobs=1\nlevel=HI\nrelease=0\nlo=1\n",
            ),
            (
                "smallest plan",
                "slots=1\njobs=1\nlevel=HI\nrelease=0\ndeadline=1\nlo=1\nhi=1\nslot=1\n",
            ),
            (
                "one byte more",
                "slots=1\njobs=1\nlevel=HI\nrelease=0\ndeadline=1\nlo=1\nhi=1\nslot=1\n\n",
            ),
            (
                "one slot more",
                "slots=1\njobs=1\nlevel=HI\nrelease=0\ndeadline=1\nlo=1\nhi=1\nslot=1\nslot=0\n",
            ),
        ],
    )
}

// A text cut short is refused 1 at the line that is missing or unfinished.
pub(crate) fn cut_at_every_byte(rt: &impl Print) -> io::Result<()> {
    let whole = b"slots=1\njobs=1\nlevel=LO\nrelease=0\ndeadline=1\nlo=1\nhi=1\nslot=0\n";
    for k in 0..whole.len() {
        text(rt, "cut", &whole[..k])?;
    }
    Ok(())
}
