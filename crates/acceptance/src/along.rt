// Check 9: from border to border along the table, looking only where a HI job is about to end.
ghost use Rattle.std.specs.Prelude.{◌≡◌, ◌-◌, ◌≤◌, ◌&&◌, length};
ghost use Rattle.words.specs.Words.{◌=?◌};
ghost use Rattle.acceptance.specs.Work.{left_along, work_along};
ghost use Rattle.plan.specs.Plan.{is_hi, counts_at};
ghost use Rattle.intervals.specs.Intervals.{max_intervals};
ghost use Rattle.intervals.specs.Layout.{layout_of};
ghost use Rattle.well_formed.specs.InOrder.{InOrder};

use answers::{Answer, Refusal};
use intervals::Layout;
use plan::{JOBS, Job, Plan};
use std::array;

// A plan that passes 2 to 7 and 17, with its intervals laid out once.
#[derive(Clone, Copy)]
pub(crate) struct Laid<'a> {
    pub plan: &'a Plan,
    pub layout: Layout,
    pub ghost in_order: { InOrder plan.now },
    pub ghost laid: { layout ≡ layout_of plan.now },
    pub ghost whole: { length layout.interval ≡ max_intervals },
}

// A border of the table of a laid plan, 0 to N, and the table slots of each job before it.
#[derive(Clone, Copy)]
struct Border<'a> {
    of: &'a Laid<'a>,
    t: u16,
    counts: [u16; JOBS],
    ghost within: { t ≤ of.now.plan.now.slots },
    ghost counted: { counts ≡ counts_at of.now.plan.now t },
}

impl<'a> Laid<'a> {
    ghost use Rattle.answers.specs.Answer.{Accepted};
    ghost use Rattle.well_formed.specs.WellFormed.{well_formed};
    ghost use Rattle.well_formed.specs.InOrder.{Sized};
    ghost use Rattle.acceptance.specs.Acceptance.{check9};

    // A plan that passes them, with its intervals.
    pub(crate) fn of(p: &'a Plan) -> Laid<'a>
        requires sized { Sized p.now }
        requires formed { well_formed p.now ≡ Accepted }
        ensures { result.plan.now ≡ p.now }
    {
        let layout = intervals::layout_of(p);
        Laid { plan: p, layout }
    }

    // 9: between two ends a border that is short stays short, so the border before each end is looked at; where one is short
    // the first such border lies after the last one looked at.
    pub(crate) fn check9(&self) -> Answer
        ensures { result ≡ check9 self.now.plan.now }
    {
        let mut from = Border::first(self);
        while let Some(b) = from.next_end() {
            if b.is_short() {
                return from.first_short();
            }
            from = b.next();
        }
        Ok(())
    }
}

// The HI work of a job that has had so many table slots: it ends on its lo-th.
fn left_along(j: Job, count: u16) -> u16
    ensures { result ≡ left_along j count }
{
    let live = count < j.lo;
    spares::hi_left(j, live, count)
}

// The next table slot of a job that has had so many is the last of a HI job.
fn is_last(j: Job, count: u16) -> bool
    ensures { result ≡ (is_hi j && (count =? j.lo - 1)) }
{
    plan::is_hi(j) && count == j.lo.saturating_sub(1)
}

// The HI work along the table, job by job.
fn work_along(job: &[Job; JOBS], counts: [u16; JOBS]) -> [u16; JOBS]
    ensures { result ≡ work_along job.now counts }
{
    array::from_fn(move |i| left_along(job[i], counts[i]))
}

impl<'a> Border<'a> {
    ghost use Rattle.std.specs.Prelude.{◌+◌, ◌<◌, IfSome, IfNone};
    ghost use Rattle.plan.specs.Plan.{table_at};
    ghost use Rattle.acceptance.specs.Borders.{ends_at, overdrawn, NoneEnds, overdrawn_from};

    // Border 0.
    fn first(of: &'a Laid<'a>) -> Border<'a>
        ensures { (result.of ≡ of.entry) × (result.t ≡ 0) }
    {
        Border {
            of,
            t: 0,
            counts: [0; JOBS],
        }
    }

    // The current HI spare is below 0.
    fn is_short(self) -> bool
        ensures { result ≡ overdrawn self.entry.of.now.plan.now self.entry.t }
    {
        let work = work_along(&self.of.plan.job, self.counts);
        let sums = spares::debt::work_by_home(&self.of.layout.home, &work);
        spares::debt::in_debt(&self.of.layout, self.t, &sums)
    }

    // The slot at this border is the last of a HI job.
    #[tactic(auto, unfolding(crate::specs::Borders::ends_at))]
    fn ends(self) -> bool
        requires { self.t < self.of.now.plan.now.slots }
        ensures { result ≡ ends_at self.entry.of.now.plan.now.job self.entry.counts (table_at self.entry.of.now.plan.now self.entry.t) }
    {
        let k = usize::from(self.of.plan.table[usize::from(self.t)]);
        1 <= k && k <= JOBS && is_last(self.of.plan.job[k - 1], self.counts[k - 1])
    }

    // The border after the slot at this one.
    fn next(self) -> Border<'a>
        requires { self.t < self.of.now.plan.now.slots }
        ensures { (result.of ≡ self.entry.of) × (result.t ≡ self.entry.t + 1) }
    {
        let mut counts = self.counts;
        plan::count_slot(&mut counts, self.of.plan.table[usize::from(self.t)]);
        Border {
            of: self.of,
            t: self.t + 1,
            counts,
        }
    }

    // This border or the next one at which the slot is the last of a HI job; None where no HI job ends up to N.
    fn next_end(self) -> Option<Border<'a>>
        ensures next { IfSome result (λ b. (b.of ≡ self.entry.of) × (self.entry.t ≤ b.t) × (b.t < self.entry.of.now.plan.now.slots) × NoneEnds self.entry.of.now.plan.now self.entry.t b.t) }
        ensures none { IfNone result (NoneEnds self.entry.of.now.plan.now self.entry.t self.entry.of.now.plan.now.slots) }
    {
        let mut b = self;
        while b.t < b.of.plan.slots {
            if b.ends() {
                return Some(b);
            }
            b = b.next();
        }
        None
    }

    // The first border from here on at which the current HI spare is below 0.
    fn first_short(self) -> Answer
        ensures { result ≡ overdrawn_from self.entry.of.now.plan.now self.entry.t }
    {
        let mut b = self;
        while b.t < b.of.plan.slots {
            if b.is_short() {
                return Err(Refusal::Overdrawn(b.t));
            }
            b = b.next();
        }
        Ok(())
    }
}
