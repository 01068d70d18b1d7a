// Lines printed: each is put whole on a sheet that has room for it. What is printed when is in check.rt and run.rt.
ghost use Rattle.std.specs.Prelude.{◌≡◌, [], ◌∷◌, ◌++◌, ◌≤◌, length, Err};
ghost use Rattle.lines.specs.Lines.{digits};
ghost use Rattle.console.specs.Print.{signed, refused_line};
ghost use Rattle.console.specs.Run.{job_number, phase_letter, standing_letter};
ghost use Rattle.console.specs.Pieces.{Piece, longest};
ghost use Rattle.console.specs.Sheet.{Puts};
ghost use Rattle.console.specs.Printed.{interval_line, step_line_from, job_line};

use answers::Refusal;
use entries::{Entry, Standing};
use executive::{Choice, Phase, Run};
use intervals::Interval;
use ready::Slot;

fn phase_letter(phase: Phase) -> u8
    ensures { result ∷ [] ≡ phase_letter phase }
{
    match phase {
        Phase::T => b'T',
        Phase::H => b'H',
    }
}

fn standing_letter(standing: Standing) -> u8
    ensures { result ∷ [] ≡ standing_letter standing }
{
    match standing {
        Standing::Waiting => b'W',
        Standing::Finished(_) => b'F',
        Standing::Cut(_) => b'C',
        Standing::Dropped(_) => b'D',
    }
}

fn job_number(slot: Slot) -> u16
    ensures { result ≡ job_number slot }
{
    match slot {
        Slot::Job(k) => k,
        Slot::Idle => 0,
    }
}

// An output and the place in it where the next piece goes.
#[derive(Drop)]
pub(crate) struct Sheet<'a> {
    pub(crate) out: &'a mut [u8],
    pub(crate) at: usize,
}

impl<'a> Sheet<'a> {
    // The digits of n.
    fn digits(&mut self, n: usize)
        ensures { Puts (length (digits n)) (digits n) self.old self.new }
    {
        if n < 1000000000 {
            self.at = lines::writing::put_number(self.out, self.at, n as u32);
            return;
        }
        self.digits(n / 10);
        self.at = lines::writing::put_number(self.out, self.at, (n % 10) as u32);
    }

    // The key of a line, or other bytes of it.
    pub(crate) fn key(&mut self, key: &[u8])
        ensures { Puts (length key.now) key.now self.old self.new }
    {
        self.at = lines::writing::put_bytes(self.out, self.at, key);
    }

    // A number and the byte that closes it.
    fn value(&mut self, n: usize, close: u8)
        ensures { Puts 21 (digits n ++ close ∷ []) self.old self.new }
    {
        self.digits(n);
        self.key(&[close]);
    }

    // A spare and the byte that closes it.
    fn spare(&mut self, z: i32, close: u8)
        ensures { Puts 22 (signed z ++ close ∷ []) self.old self.new }
    {
        let size = z.unsigned_abs() as usize;
        if z < 0 {
            self.key(b"-");
            self.value(size, close);
            return;
        }
        self.value(size, close);
    }

    // A letter and the comma after it.
    fn letter(&mut self, letter: u8)
        ensures { Puts 2 ((letter ∷ []) ++ 44 ∷ []) self.old self.new }
    {
        self.key(&[letter, b',']);
    }

    // `interval=start,end,hi,lo`
    pub(crate) fn interval_line(&mut self, x: Interval, hi: i32, lo: i32)
        ensures { Puts longest (interval_line x hi lo) self.old self.new }
    {
        self.key(b"interval=");
        self.value(usize::from(x.start), b',');
        self.value(usize::from(x.end), b',');
        self.spare(hi, b',');
        self.spare(lo, b'\n');
    }

    // `step=slot,job,phase,hi,lo`: what was chosen, the phase and the current spares before the slot. `run` is the run before it.
    pub(crate) fn step_line(&mut self, run: &Run, choice: &Choice)
        ensures { Puts longest (step_line_from run.now choice.now) self.old self.new }
    {
        self.key(b"step=");
        self.value(usize::from(run.t), b',');
        self.value(usize::from(job_number(choice.slot)), b',');
        self.letter(phase_letter(run.phase));
        self.spare(choice.hi, b',');
        self.spare(choice.lo, b'\n');
    }

    // `job=number,standing,given`
    pub(crate) fn job_line(&mut self, number: usize, e: Entry)
        ensures { Puts longest (job_line number e) self.old self.new }
    {
        self.key(b"job=");
        self.value(number, b',');
        self.letter(standing_letter(e.standing));
        self.value(usize::from(e.given), b'\n');
    }

    // `refused=number,place`, and where there are two places, as with Overfull, both
    pub(crate) fn refused_line(&mut self, refusal: Refusal)
        ensures { Puts longest (refused_line (Err refusal)) self.old self.new }
    {
        let number = answers::number_of::<()>(Err(refusal));
        self.key(b"refused=");
        self.value(usize::from(number), b',');
        match refusal {
            Refusal::Overfull(a, b) => {
                self.value(usize::from(a), b',');
                self.value(usize::from(b), b'\n');
            }
            _ => self.value(answers::first_place::<()>(Err(refusal)), b'\n'),
        }
    }
}

// A refusal's line alone, at the start of an output that has room for it.
pub(crate) fn put_refusal(out: &mut [u8], refusal: Refusal) -> usize
    requires { longest ≤ length out.old }
    ensures { Piece longest 0 (refused_line (Err refusal)) out.old result out.new }
{
    let mut sheet = Sheet { out, at: 0 };
    sheet.refused_line(refusal);
    sheet.at
}
