// One accepted report, applied: the job's entry, expiry, the phase. What a step is refused for is in going.rt (10 and 11) and lib.rt (12 and 13).
ghost use Rattle.std.specs.Prelude.{◌≡◌, ◌≤◌, ◌<◌, length};
ghost use Rattle.plan.specs.Limits.{max_slots, max_jobs};
ghost use Rattle.plan.specs.Counts.{max_count};
ghost use Rattle.entries.specs.Entry.{ran_on};
ghost use Rattle.executive.specs.Step.{kind_fits, reported, expired_entries, expired, overrun, every_settled, can_return, phase_after, judged};
ghost use Rattle.executive.specs.Sound.{Countable, Whole};

use crate::going::Going;
use crate::{Phase, Run};
use entries::{Entry, Kind, expired_entry, past_lo, settled, standing_after};
use plan::{JOBS, Job};
use ready::{Slot, index};

// `end` and `more` belong to a slot with a job, `none` to an idle one.
#[tactic(auto, unfolding(crate::specs::Step::kind_fits))]
pub(crate) fn kind_fits(slot: Slot, kind: Kind) -> bool
    ensures { result ≡ kind_fits slot kind }
{
    matches!(
        (slot, kind),
        (Slot::Job(_), Kind::End | Kind::More) | (Slot::Idle, Kind::None)
    )
}

// The entry of the job that ran: one slot more given.
#[tactic(auto, unfolding(entries::specs::Entry::ran_on))]
fn ran_on(kind: Kind, border: u16, j: Job, e: Entry) -> Entry
    requires { e.given < max_count }
    ensures { result ≡ ran_on kind border j e }
{
    let given = e.given + 1;
    Entry {
        standing: standing_after(kind, j.hi, given, border, e.standing),
        given,
    }
}

// Each of these jobs' entries has met border t; the entries beyond them stay.
fn expired_entries(t: u16, job: &[Job], before: [Entry; JOBS]) -> [Entry; JOBS]
    requires { length job.now ≤ max_jobs }
    ensures { result ≡ expired_entries t job.now before }
{
    let mut entry = before;
    for (i, j) in job.iter().enumerate() {
        entry[i] = expired_entry(t, *j, entry[i]);
    }
    entry
}

// The return test, job by job against the counts.
fn every_settled(job: &[Job], entry: &[Entry], counts: [u16; JOBS]) -> bool
    ensures { result ≡ every_settled job.now entry.now counts }
{
    job.iter()
        .zip(entry)
        .zip(&counts)
        .all(|((j, e), count)| settled(*j, *e, *count))
}

impl Run {
    // The report of a slot is applied to its job, and t grows by 1.
    #[tactic(auto, unfolding(crate::specs::Step::reported))]
    fn reported(self, slot: Slot, kind: Kind) -> Run
        requires { (self.t < max_slots) × Countable self slot }
        ensures { result ≡ reported self slot kind }
    {
        let border = self.t + 1;
        let mut next = self;
        let Slot::Job(k) = slot else {
            next.t = border;
            return next;
        };
        let i = index(k);
        next.entry[i] = ran_on(kind, border, self.plan.job[i], self.entry[i]);
        next.t = border;
        next
    }

    // Live LO jobs with d <= t are dropped; entries beyond the n jobs stay.
    #[tactic(auto, unfolding(crate::specs::Step::expired))]
    fn expired(self) -> Run
        ensures { result ≡ expired self }
    {
        Run {
            entry: expired_entries(self.t, self.jobs(), self.entry),
            ..self
        }
    }

    // The reported HI job is live and has had its lo.
    #[tactic(auto, unfolding(crate::specs::Step::overrun))]
    fn overruns(&self, slot: Slot) -> bool
        requires { Whole self.now }
        ensures { result ≡ overrun self.now slot }
    {
        let Slot::Job(k) = slot else {
            return false;
        };
        let i = index(k);
        i < JOBS && past_lo(self.plan.job[i], self.entry[i])
    }

    // The return test, against the counts of border t.
    #[tactic(auto, unfolding(crate::specs::Step::can_return))]
    fn can_return(&self) -> bool
        ensures { result ≡ can_return self.now }
    {
        let counts = plan::counts_at(self.plan, self.t);
        every_settled(self.jobs(), &self.entry, counts)
    }

    fn phase_after(&self, slot: Slot) -> Phase
        requires { Whole self.now }
        ensures { result ≡ phase_after self.now.phase self.now slot }
    {
        match self.phase {
            Phase::T if self.overruns(slot) => Phase::H,
            Phase::H if self.can_return() => Phase::T,
            phase => phase,
        }
    }

    // The phase, judged on what stands after the report and the expiry.
    #[tactic(auto, unfolding(crate::specs::Step::judged))]
    fn judged(self, slot: Slot) -> Run
        ensures { result ≡ judged self slot }
    {
        Run {
            phase: self.phase_after(slot),
            ..self
        }
    }
}

impl Going<'_> {
    ghost use Rattle.executive.specs.Choice.{chosen};
    ghost use Rattle.executive.specs.Step.{next_run};

    // What stands after an accepted report of the slot that was chosen, its rows still the old ones: the report, expiry, the
    // phase. Never inlined: the runs between are off the stack when the rows are worked out.
    #[inline(never)]
    fn after_report(&self, slot: Slot, kind: Kind) -> Run
        requires { slot ≡ chosen self.now.run.now }
        ensures { result ≡ judged (expired (reported self.now.run.now slot kind)) slot }
    {
        let told = self.run.reported(slot, kind);
        let left = told.expired();
        left.judged(slot)
    }

    // The run after an accepted report of the slot that was chosen: the report, expiry, the phase, then both rows.
    pub(crate) fn next_run(&self, slot: Slot, kind: Kind) -> Run
        requires { slot ≡ chosen self.now.run.now }
        ensures { result ≡ next_run self.now.run.now slot kind }
    {
        let judged = self.after_report(slot, kind);
        judged.refreshed(self.layout)
    }
}
