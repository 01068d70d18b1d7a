// The plan text read: its lines in their fixed order, judged line by line. Windows, budgets and the table are judged in well_formed.
ghost use Rattle.std.specs.Prelude.{◌≡◌, ◌+◌, ◌*◌, ◌≤◌, ◌<◌, length};
ghost use Rattle.lines.specs.Lines.{bytes, number, many, field};
ghost use Rattle.lines.specs.Reading.{field_at, line_with};
ghost use Rattle.plan.specs.Plan.{blank_plan};
ghost use Rattle.plan_text.specs.Read.{level_in, next_job, next_plan, read_plan};
ghost use Rattle.plan_text.specs.Reader.{Taken, Reads, read_into, plan_lines, last_line, plan_told, prefix_told, plan_from, plan_prefix};

use super::PlanRead;
use answers::{Answer, Refusal};
use line_reader::{LineReader, number_field};
use plan::{JOBS, Job, Level, Plan, SLOTS};

// The lines of the largest plan, and the last line that has a number.
const PLAN_LINES: usize = 2 + 5 * JOBS + SLOTS;

const LAST_LINE: usize = 65535;

// The plan that was read, the first byte after its last line and the number of the line there;
// or a refusal beside the blank plan, place 0 and line 0.
#[derive(Clone, Copy)]
pub struct PlanPrefix {
    pub answer: Answer,
    pub plan: Plan,
    pub next: usize,
    pub line: u16,
}

// A walk through the lines of a text: the reader at the next line, and that line's number.
#[derive(Drop)]
struct Lines<'a> {
    reader: LineReader<'a>,
    line: u16,
}

#[tactic(auto, using(crate::specs::ReaderLaws::level_two), unfolding(crate::specs::Read::level_in, lines::specs::Lines::same_bytes))]
fn level_in(s: &[u8]) -> Option<Level>
    ensures { result ≡ level_in s.now }
{
    match s {
        b"HI" => Some(Level::Hi),
        b"LO" => Some(Level::Lo),
        _ => None,
    }
}

// The level on the line at `at`, and the first byte of the next line.
#[tactic(auto, using(lines::specs::ReadingLaws::field_steps))]
fn level_field(text: &[u8], at: usize) -> Option<(Level, usize)>
    ensures { result ≡ field_at level_in text.now at (bytes "level=") }
{
    let value = line_reader::find_value(text, at, b"level=")?;
    let level = level_in(line_reader::part_from(text, value.start, value.len))?;
    Some((level, value.next))
}

impl Lines<'_> {
    // What was found on the line, and the lines after it; nothing was found: 1 at this line.
    #[inline(always)]
    fn taken<T>(&mut self, found: Option<(T, usize)>) -> Result<T, Refusal>
        requires { self.old.line < last_line }
        ensures { Taken self.old found result self.new }
    {
        let (value, next) = found.ok_or(Refusal::Form(self.line))?;
        self.reader.at = next;
        self.line += 1;
        Ok(value)
    }

    // The number on the line.
    #[tactic(auto, using(crate::specs::ReaderLaws::taken_reads))]
    #[inline(always)]
    fn number(&mut self, key: &[u8]) -> Result<u16, Refusal>
        requires { self.old.line < last_line }
        ensures { Reads (line_with number key.now) 1 self.old result self.new }
    {
        self.taken(number_field(self.reader.text, self.reader.at, key))
    }

    // The level on the line.
    #[tactic(auto, using(crate::specs::ReaderLaws::taken_reads), unfolding(lines::specs::Lines::field))]
    fn level(&mut self) -> Result<Level, Refusal>
        requires { self.old.line < last_line }
        ensures { Reads (field level_in "level=") 1 self.old result self.new }
    {
        self.taken(level_field(self.reader.text, self.reader.at))
    }

    // The five lines of a job.
    fn job(&mut self) -> Result<Job, Refusal>
        requires { self.old.line + 5 ≤ last_line }
        ensures { Reads next_job 5 self.old result self.new }
    {
        let level = self.level()?;
        let release = self.number(b"release=")?;
        let deadline = self.number(b"deadline=")?;
        let lo = self.number(b"lo=")?;
        let hi = self.number(b"hi=")?;
        Ok(Job {
            level,
            release,
            deadline,
            lo,
            hi,
        })
    }

    // The lines of as many jobs as the slice has room for.
    fn jobs(&mut self, jobs: &mut [Job]) -> Result<(), Refusal>
        requires lines { self.old.line + 5 * length jobs.old ≤ last_line }
        requires within { self.old.reader.at ≤ length self.old.reader.text.now }
        ensures { Reads (many (length jobs.old) next_job) (5 * length jobs.old) self.old (read_into jobs.new result) self.new }
    {
        for job in jobs {
            *job = self.job()?;
        }
        Ok(())
    }

    // The lines of as many slots as the slice has room for.
    fn slots(&mut self, slots: &mut [u16]) -> Result<(), Refusal>
        requires lines { self.old.line + length slots.old ≤ last_line }
        requires within { self.old.reader.at ≤ length self.old.reader.text.now }
        ensures { Reads (many (length slots.old) (field number "slot=")) (length slots.old) self.old (read_into slots.new result) self.new }
    {
        for slot in slots {
            *slot = self.number(b"slot=")?;
        }
        Ok(())
    }

    // The lines of a plan, into the record that was lent, so that it is not copied; those of the largest have numbers.
    fn plan(&mut self, plan: &mut Plan) -> Result<(), Refusal>
        requires lines { self.old.line + plan_lines ≤ last_line }
        requires blank { plan.old ≡ blank_plan }
        ensures { Reads next_plan plan_lines self.old (read_into plan.new result) self.new }
    {
        let slots = self.number(b"slots=")?;
        plan::slot_limit(slots)?;
        let jobs = self.number(b"jobs=")?;
        plan::job_limit(jobs)?;
        plan.slots = slots;
        plan.jobs = jobs;
        self.jobs(&mut plan.job[..usize::from(jobs)])?;
        self.slots(&mut plan.table[..usize::from(slots)])?;
        Ok(())
    }

    // The plan from any line on: where the lines of the largest would pass the last number it is refused at its first.
    fn numbered_plan(&mut self, plan: &mut Plan) -> Result<(), Refusal>
        requires { plan.old ≡ blank_plan }
        ensures { prefix_told (read_into plan.new result) self.new ≡ plan_from self.old.reader.text.now self.old.reader.at self.old.line }
    {
        if LAST_LINE < usize::from(self.line) + PLAN_LINES {
            return Err(Refusal::Form(self.line));
        }
        self.plan(plan)
    }
}

// The plan at a place of the text, which is the start of that line, whatever follows the plan. Every place and line is answered:
// past the text's end the line is missing, and where its lines would pass the last number the plan is refused at its first.
pub fn plan_from(text: &[u8], at: usize, line: u16) -> PlanPrefix
    ensures { result ≡ plan_from text.now at line }
{
    let reader = LineReader { text, at };
    let mut lines = Lines { reader, line };
    let mut plan = plan::blank_plan();
    match lines.numbered_plan(&mut plan) {
        Ok(()) => PlanPrefix {
            answer: Ok(()),
            plan,
            next: lines.reader.at,
            line: lines.line,
        },
        Err(refusal) => PlanPrefix {
            answer: Err(refusal),
            plan: plan::blank_plan(),
            next: 0,
            line: 0,
        },
    }
}

// The plan at the start of the text, whatever follows it.
#[tactic(auto, using(crate::specs::PrefixLaws::from_start))]
pub fn plan_prefix(text: &[u8]) -> PlanPrefix
    ensures { result ≡ plan_prefix text.now }
{
    plan_from(text, 0, 1)
}

// The plan that the text is, with nothing after it, into the record that was lent.
fn whole_plan(text: &[u8], plan: &mut Plan) -> Result<(), Refusal>
    requires { plan.old ≡ blank_plan }
    ensures { plan_told (read_into plan.new result) ≡ read_plan text.now }
{
    let reader = LineReader { text, at: 0 };
    let mut lines = Lines { reader, line: 1 };
    lines.plan(plan)?;
    if lines.reader.at < text.len() {
        return Err(Refusal::Form(lines.line));
    }
    Ok(())
}

// The plan that the text is, or the refusal beside the blank plan.
pub fn read_plan(text: &[u8]) -> PlanRead
    ensures { result ≡ read_plan text.now }
{
    let mut read = PlanRead {
        answer: Ok(()),
        plan: plan::blank_plan(),
    };
    if let Err(refusal) = whole_plan(text, &mut read.plan) {
        read = PlanRead {
            answer: Err(refusal),
            plan: plan::blank_plan(),
        };
    }
    read
}
