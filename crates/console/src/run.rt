// The run program's console: a value that is handed the input piece by piece and says what is printed. Reading and writing are in run_plan.
ghost use Rattle.std.specs.Prelude.{◌≡◌, ◌≤◌, length, Some, IfSome, Err};
ghost use Rattle.plan.specs.Limits.{max_jobs};
ghost use Rattle.executive.specs.Run.{start};
ghost use Rattle.executive.specs.Step.{step};
ghost use Rattle.console.specs.Run.{job_lines_from};
ghost use Rattle.console.specs.Pieces.{Piece, CountsIn};
ghost use Rattle.console.specs.Console.{fresh_console, refuses, started_event, plan_event, line_ready, line_after, stepped_event, line_event, event, unread_output, end_in, is_stopped, run_room, turn_of, next_turn, next_out, end_length, end_written};
ghost use Rattle.console.specs.Turns.{Told, turn_in};
ghost use Rattle.console.specs.declared.run.Stage.TheVariants.{Running};
ghost use Rattle.plan_text.specs.Reader.{plan_prefix};
ghost use Rattle.plan_text.specs.DecidedLaws.{is_final};

use crate::print::{Sheet, put_refusal};
use crate::reports::report_field;
use answers::Refusal;
use entries::Entry;
use executive::{Report, Run};
use plan::{JOBS, Plan};

// The room that one event's lines need at most: a line of each job.
pub const RUN_ROOM: usize = 4096;

// With so many bytes in hand a plan that is refused stays refused.
const ENOUGH: usize = 6805;

// No report line is longer.
const LONGEST_REPORT: usize = 17;

#[derive(Clone, Copy, PartialEq, Eq)]
pub enum Stage {
    Reading,
    Running,
    Stopped,
}

// Where the program stands: at the plan, or in a run with `line` the number of the next line, or stopped by a refusal.
#[derive(Clone, Copy)]
pub struct Console {
    pub stage: Stage,
    pub run: Run,
    pub line: u16,
}

// The console after an event, how many bytes of the text are done with, and how many bytes were printed.
#[derive(Clone, Copy)]
pub struct Turn {
    pub console: Console,
    pub used: usize,
    pub printed: usize,
}

// Before any input.
pub fn fresh_console() -> Console
    ensures { result ≡ fresh_console }
{
    Console {
        stage: Stage::Reading,
        run: executive::blank_run(),
        line: 0,
    }
}

// A refusal is printed, and the console stops. Here and in the events below: how many bytes of the text are done with, and
// how many bytes were printed. The console is moved where it stands: a Turn is a large record, and is made once, by `next`.
fn refused(c: &mut Console, refusal: Refusal, out: &mut [u8; RUN_ROOM]) -> (usize, usize)
    ensures { Told (refuses c.old (Err refusal)) out.old (turn_in c.new (Some result)) out.new }
{
    c.stage = Stage::Stopped;
    (0, put_refusal(out, refusal))
}

// The run of the plan that was read begins.
fn begun(
    c: &mut Console,
    plan: Plan,
    used: usize,
    line: u16,
    out: &mut [u8; RUN_ROOM],
) -> (usize, usize)
    ensures { Told (started_event c.old used line (start plan)) out.old (turn_in c.new (Some result)) out.new }
{
    let started = executive::start(plan);
    match started.answer {
        Err(refusal) => refused(c, refusal, out),
        Ok(()) => {
            c.stage = Stage::Running;
            c.run = started.run;
            c.line = line;
            (used, 0)
        }
    }
}

// More text would not change this refusal: the line at fault is complete, or the bytes in hand are enough.
fn is_final(text: &[u8], refusal: Refusal) -> bool
    ensures { result ≡ is_final text.now (Err refusal) }
{
    lines::counting::has_lines(text, answers::first_place::<()>(Err(refusal)))
        || ENOUGH <= text.len()
}

// The plan at the start of the text, once it is there or can no longer be completed; until then None.
// Never inlined: its plan and its analysis are off the stack when a step is made.
#[inline(never)]
fn take_plan(c: &mut Console, text: &[u8], out: &mut [u8; RUN_ROOM]) -> Option<(usize, usize)>
    ensures { Told (plan_event c.old text.now) out.old (turn_in c.new result) out.new }
{
    let prefix = plan_text::reader::plan_prefix(text);
    match prefix.answer {
        Ok(()) => Some(begun(c, prefix.plan, prefix.next, prefix.line, out)),
        Err(refusal) if is_final(text, refusal) => Some(refused(c, refusal, out)),
        Err(_) => None,
    }
}

// The first line's LF is in hand, or the line is too long to be of the form.
fn line_ready(text: &[u8]) -> bool
    ensures { result ≡ line_ready text.now }
{
    lines::reading::line_end(text, 0) < text.len() || LONGEST_REPORT <= text.len()
}

// The number of the line after this one.
fn line_after(line: u16) -> u16
    ensures { result ≡ line_after line }
{
    line.saturating_add(1)
}

// A report is applied: the step line and the next run, or a refusal.
fn stepped(c: &mut Console, report: Report, used: usize, out: &mut [u8; RUN_ROOM]) -> (usize, usize)
    ensures { Told (stepped_event c.old used (step c.old.run report)) out.old (turn_in c.new (Some result)) out.new }
{
    let after = c.run.step(report);
    match after.answer {
        Err(refusal) => refused(c, refusal, out),
        Ok(()) => {
            let mut sheet = Sheet { out, at: 0 };
            sheet.step_line(&c.run, &after.choice);
            c.stage = Stage::Running;
            c.run = after.run;
            c.line = line_after(c.line);
            (used, sheet.at)
        }
    }
}

// The report line at the start of the text, once it can be judged; until then None.
fn take_line(c: &mut Console, text: &[u8], out: &mut [u8; RUN_ROOM]) -> Option<(usize, usize)>
    ensures { Told (line_event c.old text.now) out.old (turn_in c.new result) out.new }
{
    if !line_ready(text) {
        return None;
    }
    match report_field(text) {
        None => Some(refused(c, Refusal::Form(c.line), out)),
        Some((report, used)) => Some(stepped(c, report, used, out)),
    }
}

// The event of the console's stage; None where it waits.
fn event(c: &mut Console, text: &[u8], out: &mut [u8; RUN_ROOM]) -> Option<(usize, usize)>
    ensures { Told (event c.old text.now) out.old (turn_in c.new result) out.new }
{
    match c.stage {
        Stage::Reading => take_plan(c, text, out),
        Stage::Running => take_line(c, text, out),
        Stage::Stopped => None,
    }
}

// A line for each job, in order.
fn put_job_lines(out: &mut [u8; RUN_ROOM], entries: &[Entry]) -> usize
    requires { length entries.now ≤ max_jobs }
    ensures { Piece run_room 0 (job_lines_from 1 entries.now) out.old result out.new }
{
    let mut sheet = Sheet { out, at: 0 };
    for (i, e) in entries.iter().enumerate() {
        sheet.job_line(i + 1, *e);
    }
    sheet.at
}

// The refusal of a plan that the input ends in; a plan that is complete has none.
fn put_unread(out: &mut [u8; RUN_ROOM], text: &[u8]) -> usize
    ensures { Piece run_room 0 (unread_output (plan_prefix text.now)) out.old result out.new }
{
    match plan_text::reader::plan_prefix(text).answer {
        Ok(()) => 0,
        Err(refusal) => put_refusal(out, refusal),
    }
}

// The job lines; a line that is not finished is bad.
fn put_rest(out: &mut [u8; RUN_ROOM], text: &[u8], c: Console) -> usize
    ensures { Piece run_room 0 (end_in Running c text.now) out.old result out.new }
{
    if text.len() == 0 {
        let jobs = JOBS.min(usize::from(c.run.plan.jobs));
        return put_job_lines(out, &c.run.entry[..jobs]);
    }
    put_refusal(out, Refusal::Form(c.line))
}

impl Console {
    // A refusal was printed: no more input is looked at.
    pub fn is_stopped(self) -> bool
        ensures { result ≡ is_stopped self.stage }
    {
        self.stage == Stage::Stopped
    }

    // One event for the text in hand, which is all input that is not done with; what it prints is at the start of the output.
    // None: the console waits for more text, where it stands, and the output is as it was. It waits too at an output with less than RUN_ROOM.
    pub fn next(self, text: &[u8], out: &mut [u8]) -> Option<Turn>
        ensures value { result ≡ next_turn self text.now out.old }
        ensures out_after { out.new ≡ next_out self text.now out.old }
        ensures used_in_bounds { IfSome result (λ turn. (turn.used ≤ length text.now) × CountsIn turn.printed out.new) }
    {
        let out = out.first_chunk_mut::<RUN_ROOM>()?;
        let mut console = self;
        let (used, printed) = event(&mut console, text, out)?;
        Some(Turn {
            console,
            used,
            printed,
        })
    }

    // The end of input, with this text left. An output with less than RUN_ROOM is left as it is.
    pub fn end(self, text: &[u8], out: &mut [u8]) -> usize
        ensures value { result ≡ end_length self text.now out.old }
        ensures out_after { out.new ≡ end_written self text.now out.old }
        ensures counts_in { CountsIn result out.new }
    {
        let Some(out) = out.first_chunk_mut::<RUN_ROOM>() else {
            return 0;
        };
        match self.stage {
            Stage::Reading => put_unread(out, text),
            Stage::Running => put_rest(out, text, self),
            Stage::Stopped => 0,
        }
    }
}
