// The run program: reads a plan and, directly after it, report lines; answers each report as soon as its line has arrived.
// It holds only input that is not done with. A read or a write that fails ends it, with nothing more printed.
#![tactic(auto)]

ghost use Rattle.std.specs.Prelude.{◌<◌, take, IfSome};
ghost use Rattle.plan_text.specs.DecidedLaws.{enough};
ghost use Rattle.run_plan.specs.Loop.{Answered, Ended, Rested, Standing, Turned};

use console::run::{Console, RUN_ROOM, Turn};
use std::io::{Eprint, Read, Write};

// A plan's text at most: its two first lines, five lines for each job and one for each slot. A console that waits holds less.
const PLAN: usize = 11 + 10 + plan::JOBS * 52 + plan::SLOTS * 10;

// Room for such a text and for the next piece of input.
const HELD: usize = PLAN + 4096;

// One event for the text, or nothing where the console waits; what it prints is at the start of the output.
#[tactic(auto, using(crate::specs::LoopLaws::turn_answered))]
fn answered(c: Console, text: &[u8], out: &mut [u8; RUN_ROOM]) -> Option<Turn>
    ensures { Answered c text.now result out.new }
{
    c.next(text, out)
}

// Events until the console waits, each printed before the next one: the console then, and how much of the text is done with.
// Nothing where a write failed.
#[tactic(auto, using(crate::specs::LoopLaws::near_start, crate::specs::LoopLaws::near_rest))]
fn settled<W: Write>(
    rt: &impl Eprint,
    output: &mut W,
    first: Console,
    text: &[u8],
    out: &mut [u8; RUN_ROOM],
) -> Option<(Console, usize)>
    ensures { IfSome result (λ r. Rested first text.now r.0 r.1 (W.contents output.old) (W.contents output.new)) }
{
    let mut c = first;
    let mut done = 0;
    while let Some(turn) = answered(c, &text[done..], out) {
        if streams::write_out(rt, output, &out[..turn.printed]) < turn.printed {
            return None;
        }
        c = turn.console;
        done += turn.used;
    }
    Some((c, done))
}

// The console, and at the start of `held` the n bytes that came and are not done with.
#[derive(Drop)]
struct Session {
    console: Console,
    held: [u8; HELD],
    n: usize,
    ghost few: { n < enough },
}

impl Session {
    // Before any input.
    #[tactic(auto, using(crate::specs::LoopLaws::stands_first))]
    fn new() -> Session
        ensures { Standing result.console (take result.n result.held) }
    {
        Session {
            console: console::run::fresh_console(),
            held: [0; HELD],
            n: 0,
        }
    }

    // The end of input; what it prints is at the start of the output.
    #[tactic(auto, using(crate::specs::LoopLaws::ends))]
    fn end(&self, out: &mut [u8; RUN_ROOM]) -> usize
        requires standing { Standing self.now.console (take self.now.n self.now.held) }
        ensures { Ended self.now.console (take self.now.n self.now.held) out.old result out.new }
    {
        self.console.end(&self.held[..self.n], out)
    }

    // One read, and all that can then be answered; at the end of input the last lines. Nothing where the program ends.
    // A read that fails prints nothing.
    #[tactic(auto, using(crate::specs::LoopLaws::stands_on, crate::specs::LoopLaws::moved, crate::specs::LoopLaws::moved_few))]
    fn turn<R: Read, W: Write>(
        &mut self,
        rt: &impl Eprint,
        input: &mut R,
        output: &mut W,
        out: &mut [u8; RUN_ROOM],
    ) -> Option<()>
        requires standing { Standing self.old.console (take self.old.n self.old.held) }
        ensures { IfSome result (λ _. Turned self.old.console (take self.old.n self.old.held) self.new.console (take self.new.n self.new.held) (R.remaining input.old) (R.remaining input.new) (W.contents output.old) (W.contents output.new)) }
    {
        let more = streams::read_after(rt, input, &mut self.held, self.n).ok()?;
        if more == 0 {
            let printed = self.end(out);
            streams::write_out(rt, output, &out[..printed]);
            return None;
        }
        let came = self.n + more;
        let (console, done) = settled(rt, output, self.console, &self.held[..came], out)?;
        if console.is_stopped() {
            return None;
        }
        self.held.copy_within(done..came, 0);
        self.console = console;
        self.n = came - done;
        Some(())
    }
}

// The count of reads is there so that the loop is seen to end: at one a microsecond it lasts half a million years.
fn main(rt: HostRuntime) {
    let mut input = rt.stdin();
    let mut output = rt.stdout();
    let mut session = Session::new();
    let mut out = [0u8; RUN_ROOM];
    for _ in 0..u64::MAX {
        if session
            .turn(&rt, &mut input, &mut output, &mut out)
            .is_none()
        {
            return;
        }
    }
}
