// When the record of a run is coherent, on any record: the entries, the rows worked out afresh, and the whole test.
ghost use Rattle.std.specs.Prelude.{◌≡◌, ◌≤◌, if◌then◌else◌, Some, None};
ghost use Rattle.plan.specs.Limits.{max_jobs};
ghost use Rattle.executive.specs.Run.{fresh_hi, fresh_lo};
ghost use Rattle.executive.specs.MemberLaws.{Full};
ghost use Rattle.executive.specs.Sound.{Whole};
ghost use Rattle.intervals.specs.Layout.{layout_of};
ghost use Rattle.well_formed.specs.WellFormed.{well_formed};
ghost use Rattle.executive.specs.Coherent.{all_hold, coherent};
ghost use Rattle.executive.specs.Step.{refreshed};

use crate::Run;
use answers::Answer;
use entries::{Entry, standing_holds};
use intervals::Layout;
use plan::Job;
use spares::Rows;

// Of these jobs: a live one has fewer slots than hi; an ended one at most hi, and is not marked ended after t.
fn entries_hold(t: u16, job: &[Job], entry: &[Entry]) -> bool
    ensures { result ≡ all_hold t job.now entry.now }
{
    job.iter()
        .zip(entry)
        .all(|(j, e)| standing_holds(t, j.hi, e.given, e.standing))
}

impl Run {
    // Both rows of the run, worked out afresh.
    fn fresh_rows(&self, layout: &Layout) -> Rows
        requires { (Full self.now) × (layout.now ≡ layout_of self.now.plan) }
        ensures { (result.hi ≡ fresh_hi self.now) × (result.lo ≡ fresh_lo self.now) }
    {
        spares::rows_of(layout, self.t, &self.plan.job, &self.entry, self.plan.jobs)
    }

    // Both rows are the fresh ones.
    pub(crate) fn refreshed(self, layout: Layout) -> Run
        requires { (self.plan.jobs ≤ max_jobs) × (layout ≡ layout_of self.plan) }
        ensures { result ≡ refreshed self }
    {
        let Rows { hi, lo } = self.fresh_rows(&layout);
        Run { hi, lo, ..self }
    }

    // What the plan alone is refused for. Never inlined: its copy of the plan is off the stack when the layout is worked out.
    #[inline(never)]
    fn form(&self) -> Answer
        ensures { result ≡ well_formed self.now.plan }
    {
        well_formed::well_formed(self.plan)
    }

    // The layout of a coherent run's plan, worked out once; None where a clause of coherence fails.
    // Never inlined: its rows are off the stack in the rest of a step.
    #[inline(never)]
    pub(crate) fn coherent_layout(&self) -> Option<Layout>
        requires { Whole self.now }
        ensures { result ≡ (if coherent self.now then Some (layout_of self.now.plan) else None) }
    {
        self.form().ok()?;
        if self.plan.slots < self.t {
            return None;
        }
        if !entries_hold(self.t, self.jobs(), &self.entry) {
            return None;
        }
        let layout = intervals::layout_of(&self.plan);
        let fresh = self.fresh_rows(&layout);
        if !spares::same_row(&self.hi, &fresh.hi) {
            return None;
        }
        if !spares::same_row(&self.lo, &fresh.lo) {
            return None;
        }
        Some(layout)
    }
}
