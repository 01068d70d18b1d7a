// Standard input and output as every program uses them: nothing that came is lost, and what is printed has no hole.
// A call that a signal interrupted is made again; where no input is there yet, or no room for output, the program waits.
// Any other failure is said in one line on standard error. What the bytes mean is not here.
#![tactic(auto)]

ghost use Rattle.std.specs.Prelude.{◌≤◌, ◌<◌, ◌≡◌, length, take, drop, is_ok, is_some, IsErr, IfOk};
ghost use Rattle.std.specs.Io.KnownBytes.{ReadConsumes, Consumes, IsAtEnd, Appends};
ghost use Rattle.std.specs.IoError.{error_kind, raw_os_error};
ghost use Rattle.streams.specs.Streams.{ReadAfter, passing};

use arrayvec::ArrayString;
use std::fmt::Write as _;
use std::io::{self, Eprint, Error, ErrorKind, Read, Write};
use std::thread;

// A call is made at most this often, which at one a microsecond is half a million years.
const TRIES: u64 = u64::MAX;

// One line on standard error: what failed, and the system's words for the error, without its number.
fn say(rt: &impl Eprint, what: &str, error: &Error) {
    let mut said = ArrayString::<256>::new();
    let _ = write!(said, "{error}");
    let text = said.as_str();
    let words = match text.split_once(" (os error ") {
        Some((words, _)) => words,
        None => text,
    };
    let _ = eprintln!(rt; "{what}: {words}");
}

// The kind of a failure that passes: a signal came first, or nothing can be moved yet. None of any other, and of an error
// that is not the system's.
fn passing(error: &Error) -> Option<ErrorKind>
    ensures { result ≡ passing (raw_os_error error.now) (error_kind error.now) }
{
    error.raw_os_error()?;
    match error.kind() {
        ErrorKind::Interrupted => Some(ErrorKind::Interrupted),
        ErrorKind::WouldBlock => Some(ErrorKind::WouldBlock),
        _ => None,
    }
}

// After a call that failed: it may be made again, after a wait where nothing could be moved yet. Any other failure is said.
fn after_failure(rt: &impl Eprint, what: &str, error: Error) -> io::Result<()>
    ensures { is_ok result ≡ is_some (passing (raw_os_error error) (error_kind error)) }
{
    match passing(&error) {
        Some(ErrorKind::WouldBlock) => {
            thread::yield_now();
            Ok(())
        }
        Some(_) => Ok(()),
        None => {
            say(rt, what, &error);
            Err(error)
        }
    }
}

// More input, after the n bytes that are held: those stay. How many bytes came, none at the end of input.
// Without room for a byte it fails.
pub fn read_after<R: Read>(
    rt: &impl Eprint,
    input: &mut R,
    held: &mut [u8],
    n: usize,
) -> io::Result<usize>
    ensures read { ReadAfter n held.old result held.new }
    ensures bytes { ReadConsumes (R.remaining input.old) (R.remaining input.new) result (drop n held.new) }
    ensures no_room { length held.old ≤ n → IsErr result }
{
    if held.len() <= n {
        return Err(ErrorKind::InvalidInput.into());
    }
    for _ in 0..TRIES {
        match input.read(&mut held[n..]) {
            Ok(more) => return Ok(more),
            Err(error) => after_failure(rt, "standard input", error)?,
        }
    }
    Err(ErrorKind::TimedOut.into())
}

// Input from the start of `held` on, until it is full or the input ends: how many bytes came.
#[tactic(auto, using(crate::specs::StreamsLaws::came_on))]
pub fn read_full<R: Read>(rt: &impl Eprint, input: &mut R, held: &mut [u8]) -> io::Result<usize>
    ensures read { ReadAfter 0 held.old result held.new }
    ensures bytes { IfOk result (λ n. Consumes (R.remaining input.old) (R.remaining input.new) (take n held.new)) }
    ensures end { IfOk result (λ n. n < length held.new → IsAtEnd (R.remaining input.new)) }
{
    let mut n = 0;
    while n < held.len() {
        match read_after(rt, input, held, n)? {
            0 => break,
            more => n += more,
        }
    }
    Ok(n)
}

// Writes the text, each part after the one before: how many bytes were taken, all of them unless a write failed.
pub fn write_out<W: Write>(rt: &impl Eprint, output: &mut W, text: &[u8]) -> usize
    ensures count { result ≤ length text.now }
    ensures bytes { Appends (W.contents output.old) (W.contents output.new) (take result text.now) }
{
    let mut done = 0;
    for _ in 0..TRIES {
        if done == text.len() {
            break;
        }
        match output.write(&text[done..]) {
            Ok(0) => thread::yield_now(),
            Ok(more) => done += more,
            Err(error) => {
                if after_failure(rt, "standard output", error).is_err() {
                    break;
                }
            }
        }
    }
    done
}
