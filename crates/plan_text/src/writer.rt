// The writer of the plan text: the numbers and the room are checked first, then the lines are written one after the other.
// The lines themselves are in lines::writing, the reader in reader.
ghost use Rattle.std.specs.Prelude.{◌≡◌, ◌+◌, ◌≤◌, length, drop};
ghost use mathlib.Core.List.{◌++◌, flat_map};
ghost use Rattle.answers.specs.Answer.{first_refusal};
ghost use Rattle.plan.specs.Limits.{max_slots};
ghost use Rattle.plan.specs.Plan.{slots_of};
ghost use Rattle.lines.specs.Lines.{digits, line, number_line};
ghost use Rattle.lines.specs.Writing.{number_line_of};
ghost use Rattle.plan_text.specs.Sheet.{Puts};
ghost use Rattle.plan_text.specs.Read.{level_text, job_text, plan_text};
ghost use Rattle.plan_text.specs.Write.{numbers_fit, write_answer, write_out};
ghost use Rattle.plan_text.specs.Parts.{numbers_in, four_digits};

use answers::{Answer, Refusal};
use lines::writing;
use plan::{Job, Level, Plan, SLOTS};

// The largest number of four digits.
const MOST: u16 = 9999;

// The slots of a plan; a number beyond the table means all of it.
fn slots_of(p: &Plan) -> &[u16]
    ensures slots { result.now ≡ slots_of p.now }
    ensures few { length result.now ≤ max_slots }
{
    &p.table[..SLOTS.min(usize::from(p.slots))]
}

// 1 at the line of a number above 9999.
fn four_digits(line: u16, n: u16) -> Answer
    ensures { result ≡ four_digits line n }
{
    if n > MOST {
        return Err(Refusal::Form(line));
    }
    Ok(())
}

// The same of the numbers of a job whose five lines start at `line`.
#[tactic(auto, using(crate::specs::WriterLaws::job_in_turn), unfolding(answers::specs::Answer::accepted))]
fn job_fits(line: u16, job: &Job) -> Answer
    requires { line ≤ 1000 }
    ensures { result ≡ first_refusal four_digits line (numbers_in job.now) }
{
    four_digits(line + 1, job.release)?;
    four_digits(line + 2, job.deadline)?;
    four_digits(line + 3, job.lo)?;
    four_digits(line + 4, job.hi)
}

// 1: the first number of the plan above 9999, at its line.
#[tactic(auto, using(crate::specs::WriterLaws::slots_stop, crate::specs::WriterLaws::jobs_stop, crate::specs::WriterLaws::numbers_parts, crate::specs::WriterLaws::job_stops, crate::specs::WriterLaws::job_goes_on, crate::specs::WriterLaws::jobs_end, crate::specs::WriterLaws::slot_stops, crate::specs::WriterLaws::slot_goes_on, crate::specs::WriterLaws::slots_end))]
fn numbers_fit(p: &Plan) -> Answer
    ensures { result ≡ numbers_fit p.now }
{
    four_digits(1, p.slots)?;
    four_digits(2, p.jobs)?;
    let mut line = 3;
    for job in plan::first_jobs(&p.job, p.jobs) {
        job_fits(line, job)?;
        line += 5;
    }
    for name in slots_of(p) {
        four_digits(line, *name)?;
        line += 1;
    }
    Ok(())
}

// How many digits a number of the plan has: five at most.
#[tactic(auto, using(crate::specs::WriterLaws::digits_five))]
fn digit_count(n: u16) -> usize
    ensures value { result ≡ length (digits n) }
    ensures upper_bound { result ≤ 5 }
{
    writing::number_len(u32::from(n))
}

// How long a job's five lines are: 36 bytes besides its digits.
#[tactic(auto, using(crate::specs::WriterLaws::job_length))]
fn job_len(job: &Job) -> usize
    ensures value { result ≡ length (job_text job.now) }
    ensures upper_bound { result ≤ 56 }
{
    36 + digit_count(job.release)
        + digit_count(job.deadline)
        + digit_count(job.lo)
        + digit_count(job.hi)
}

// How long a slot's line is: 6 bytes besides its digits.
#[tactic(auto, using(crate::specs::WriterLaws::slot_length))]
fn slot_len(name: &u16) -> usize
    ensures value { result ≡ length (number_line "slot=" name.now) }
    ensures upper_bound { result ≤ 11 }
{
    6 + digit_count(*name)
}

// How long the text of a plan is.
#[tactic(auto, using(crate::specs::WriterLaws::text_length))]
fn text_len(p: &Plan) -> usize
    ensures { result ≡ length (plan_text p.now) }
{
    let jobs: usize = plan::first_jobs(&p.job, p.jobs).iter().map(job_len).sum();
    let slots: usize = slots_of(p).iter().map(slot_len).sum();
    13 + digit_count(p.slots) + digit_count(p.jobs) + jobs + slots
}

// An output and the place in it where the next line goes.
#[derive(Drop)]
struct Sheet<'a> {
    out: &'a mut [u8],
    at: usize,
}

impl<'a> Sheet<'a> {
    // A line of a key and a number.
    fn line(&mut self, key: &[u8], n: u16)
        ensures { Puts (number_line_of key.now n) self.old self.new }
    {
        self.at = writing::put_line(self.out, self.at, key, u32::from(n));
    }

    // The line of a level.
    fn level(&mut self, level: Level)
        ensures { Puts (line "level=" (level_text level)) self.old self.new }
    {
        self.at = match level {
            Level::Lo => writing::put_bytes(self.out, self.at, b"level=LO\n"),
            Level::Hi => writing::put_bytes(self.out, self.at, b"level=HI\n"),
        };
    }

    // A job's five lines, which have room.
    #[tactic(auto, using(crate::specs::WriterLaws::job_pieces))]
    fn job(&mut self, job: &Job)
        requires { self.old.at + length (job_text job.now) ≤ length self.old.out.now }
        ensures { Puts (job_text job.now) self.old self.new }
    {
        self.level(job.level);
        self.line(b"release=", job.release);
        self.line(b"deadline=", job.deadline);
        self.line(b"lo=", job.lo);
        self.line(b"hi=", job.hi);
    }
}

// The whole text from the start of the output, which has room for it.
fn put_plan(out: &mut [u8], p: &Plan) -> usize
    requires { length (plan_text p.now) ≤ length out.old }
    ensures value { result ≡ length (plan_text p.now) }
    ensures out_after { out.new ≡ plan_text p.now ++ drop (length (plan_text p.now)) out.old }
{
    let mut sheet = Sheet { out, at: 0 };
    sheet.line(b"slots=", p.slots);
    sheet.line(b"jobs=", p.jobs);
    for job in plan::first_jobs(&p.job, p.jobs) {
        sheet.job(job);
    }
    for name in slots_of(p) {
        sheet.line(b"slot=", *name);
    }
    sheet.at
}

// The text of a plan. Checked are 2, 3, 1 and 14; a refusal leaves the output as it was, and so are the bytes past the text.
#[tactic(auto, using(crate::specs::WriterLaws::ends_2, crate::specs::WriterLaws::ends_3, crate::specs::WriterLaws::ends_1, crate::specs::WriterLaws::ends_14, crate::specs::WriterLaws::ends_written), unfolding(plan::specs::Rules::check2, plan::specs::Rules::check3, answers::specs::Answer::accepted, crate::specs::Write::write_out))]
pub fn write_plan(p: Plan, out: &mut [u8]) -> Result<usize, Refusal>
    ensures value { result ≡ write_answer p (length out.old) }
    ensures out_after { out.new ≡ write_out p out.old }
{
    plan::slot_limit(p.slots)?;
    plan::job_limit(p.jobs)?;
    numbers_fit(&p)?;
    let len = text_len(&p);
    if out.len() < len {
        return Err(Refusal::NoRoom(len));
    }
    Ok(put_plan(out, &p))
}
