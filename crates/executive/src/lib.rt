// The run of an accepted plan, slot by slot: start, coherence, choice, report, expiry, phase. Texts and programs are above.
#![tactic(auto)]

ghost use Rattle.std.specs.Prelude.{◌≡◌, IfOk, IfErr, Err};
ghost use Rattle.answers.specs.Answer.{Accepted};
ghost use Rattle.plan.specs.Plan.{jobs_of};
ghost use Rattle.executive.specs.declared.Stepped.{Stepped};
ghost use Rattle.executive.specs.Run.{blank_run, start};
ghost use Rattle.executive.specs.Coherent.{coherent};
ghost use Rattle.executive.specs.Choice.{chosen, no_choice, choose};
ghost use Rattle.executive.specs.Step.{next_run, refused_step, step};
ghost use Rattle.executive.specs.Sound.{Whole};

use acceptance::Analysis;
use answers::{Answer, Refusal};
use entries::{Entry, Kind};
use going::Going;
use plan::{Job, Plan};
use ready::Slot;
use spares::{Row, Spare};
use stepping::kind_fits;

mod choosing;
mod coherence;
mod going;
mod stepping;

#[derive(Clone, Copy)]
pub enum Phase {
    T,
    H,
}

#[derive(Clone, Copy)]
pub struct Run {
    pub plan: Plan,
    pub t: u16,
    pub phase: Phase,
    pub hi: Row,
    pub lo: Row,
    pub entry: [Entry; plan::JOBS],
}

#[derive(Clone, Copy)]
pub struct Report {
    pub slot: u16,
    pub kind: Kind,
}

// A new run, or the plan's refusal beside the blank run.
#[derive(Clone, Copy)]
pub struct Started {
    pub answer: Answer,
    pub run: Run,
}

// What slot t is given to, how many jobs are ready, and the current spares before the slot.
#[derive(Clone, Copy)]
pub struct Choice {
    pub answer: Answer,
    pub slot: Slot,
    pub ready: u32,
    pub hi: Spare,
    pub lo: Spare,
}

// The next run and the choice that was made, or a refusal beside the same run and no choice.
#[derive(Clone, Copy)]
pub struct Stepped {
    pub answer: Answer,
    pub run: Run,
    pub choice: Choice,
}

// What a refused start hands back: the blank plan at border 0, every entry waiting with 0 given.
pub fn blank_run() -> Run
    ensures { result ≡ blank_run }
{
    Run {
        plan: plan::blank_plan(),
        t: 0,
        phase: Phase::T,
        hi: spares::blank_row(),
        lo: spares::blank_row(),
        entry: entries::fresh_entries(),
    }
}

// A new run of an accepted plan, or the plan's refusal beside the blank run.
pub fn start(p: Plan) -> Started
    ensures { result ≡ start p }
{
    let Analysis { answer, hi, lo, .. } = acceptance::analysis_of(p);
    if answer.is_err() {
        return Started {
            answer,
            run: blank_run(),
        };
    }
    let run = Run {
        plan: p,
        t: 0,
        phase: Phase::T,
        hi,
        lo,
        entry: entries::fresh_entries(),
    };
    Started { answer, run }
}

// A refused choice: idle with 0 ready and spares of 0.
fn no_choice(answer: Answer) -> Choice
    ensures { result ≡ no_choice answer }
{
    Choice {
        answer,
        slot: Slot::Idle,
        ready: 0,
        hi: 0,
        lo: 0,
    }
}

impl Run {
    // The jobs of its plan, the first n; n beyond the array means all of it.
    fn jobs(&self) -> &[Job]
        ensures { result.now ≡ jobs_of self.now.plan }
    {
        plan::first_jobs(&self.plan.job, self.plan.jobs)
    }

    // Every clause of coherence holds of the record.
    pub fn coherent(self) -> bool
        ensures { result ≡ coherent self }
    {
        self.coherent_layout().is_some()
    }

    // What slot t is given to, how many jobs are ready and the current spares; refused, idle with 0 ready and spares of 0.
    pub fn choose(self) -> Choice
        ensures { result ≡ choose self }
    {
        match self.going() {
            Ok(going) => going.choice(),
            Err(refusal) => no_choice(Err(refusal)),
        }
    }

    // What the slot goes by and the choice, where the report is of slot t and fits it; or 10 to 13. The next run is worked out
    // by `step`, so that no record of a run is handed on in a Result.
    fn allowed(&self, report: Report) -> Result<(Going<'_>, Choice), Refusal>
        requires { Whole self.now }
        ensures going { IfOk result (λ s. s.0.run.now ≡ self.now) }
        ensures made { IfOk result (λ s. s.1.slot ≡ chosen self.now) }
        ensures stepped { IfOk result (λ s. ◌≡◌ {A = Stepped} (record { answer = Accepted; run = next_run self.now s.1.slot report.kind; choice = s.1 }) (step self.now report)) }
        ensures refused { IfErr result (λ e. refused_step self.now (Err e) ≡ step self.now report) }
    {
        let going = self.going()?;
        if report.slot != self.t {
            return Err(Refusal::OtherSlot(self.t));
        }
        let choice = going.choice();
        if !kind_fits(choice.slot, report.kind) {
            return Err(Refusal::WrongKind(self.t));
        }
        Ok((going, choice))
    }

    // One report: the next run with the answer, or a refusal with the same run.
    // Never inlined: its runs are off the stack when a plan is analysed.
    #[inline(never)]
    pub fn step(self, report: Report) -> Stepped
        ensures { result ≡ step self report }
    {
        match self.allowed(report) {
            Ok((going, choice)) => Stepped {
                answer: Ok(()),
                run: going.next_run(choice.slot, report.kind),
                choice,
            },
            Err(refusal) => Stepped {
                answer: Err(refusal),
                run: self,
                choice: no_choice(Err(refusal)),
            },
        }
    }
}
