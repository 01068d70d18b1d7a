// The intervals of a plan, laid out once. Their spares are in spares.
#![tactic(auto)]

ghost use Rattle.std.specs.Prelude.{◌≡◌, List, [], ◌∷◌, ◌++◌, ◌≤◌, ◌<◌, length};
ghost use Rattle.plan.specs.Limits.{max_slots, max_jobs};
ghost use Rattle.intervals.specs.declared.Interval.{Interval};
ghost use Rattle.intervals.specs.Intervals.{max_intervals, gap, intervals};
ghost use Rattle.intervals.specs.Layout.{layout_of, listed, past_in};
ghost use Rattle.intervals.specs.Deadlines.{Windowed};
ghost use Rattle.intervals.specs.Laid.{laid, all_intervals};

use by_deadline::{homes_by, longest_windows, next_deadline, places_by_end};
use plan::{JOBS, Job, Plan, jobs_of};

mod by_deadline;

// Every deadline ends an interval, and an empty one may stand before each and after the last.
pub const INTERVALS: usize = 65;

#[derive(Clone, Copy)]
pub struct Interval {
    pub start: u16,
    pub end: u16,
}

// A plan's intervals, worked out once: how many, which, and for each job the place of its own.
#[derive(Clone, Copy)]
pub struct Layout {
    pub count: u16,
    pub interval: [Interval; INTERVALS],
    pub home: [u16; JOBS],
}

impl Layout {
    // The intervals, in order.
    pub fn listed(&self) -> &[Interval]
        ensures all { result.now ≡ listed self.now }
        ensures few { length result.now ≤ max_intervals }
    {
        &self.interval[..INTERVALS.min(usize::from(self.count))]
    }

    // One interval more, after the others.
    fn push(&mut self, start: u16, end: u16)
        requires { self.old.count < max_intervals }
        ensures { (xs : List Interval) → self.old ≡ laid xs → self.new ≡ laid (xs ++ record { start = start; end = end } ∷ []) }
    {
        self.interval[usize::from(self.count)] = Interval { start, end };
        self.count += 1;
    }

    // The empty interval from start to end, where there is a gap.
    fn push_gap(&mut self, start: u16, end: u16)
        requires { start < end → self.old.count < max_intervals }
        ensures { (xs : List Interval) → self.old ≡ laid xs → self.new ≡ laid (xs ++ gap start end) }
    {
        if start < end {
            self.push(start, end);
        }
    }
}

// A layout with no intervals and no job at home.
#[tactic(auto, unfolding(crate::specs::Laid::laid))]
fn empty_layout() -> Layout
    ensures { result ≡ laid [] }
{
    Layout {
        count: 0,
        interval: [Interval { start: 0, end: 0 }; INTERVALS],
        home: [INTERVALS as u16; JOBS],
    }
}

// The intervals of these jobs, their windows holding: deadline by deadline, each after the gap before it, and the gap after the last.
fn intervals_of(job: &[Job], slots: u16) -> Layout
    requires { (length job.now ≤ max_jobs) × (slots ≤ max_slots) × Windowed slots job.now }
    ensures { result ≡ laid (all_intervals job.now slots) }
{
    let longest = longest_windows(job);
    let mut layout = empty_layout();
    let mut prev = 0;
    while let Some(e) = next_deadline(&longest, prev, slots) {
        let start = prev.max(e - longest[usize::from(e)]);
        layout.push_gap(prev, start);
        layout.push(start, e);
        prev = e;
    }
    layout.push_gap(prev, slots);
    layout
}

// The intervals of a plan; a plan whose limits or windows are broken has none.
fn plan_intervals(p: &Plan) -> Layout
    ensures { result ≡ laid (intervals p.now) }
{
    if plan::windows_hold(*p) {
        intervals_of(jobs_of(p), p.slots)
    } else {
        empty_layout()
    }
}

// The intervals of a plan with the homes of its jobs, worked out once.
pub fn layout_of(p: &Plan) -> Layout
    ensures { result ≡ layout_of p.now }
{
    let bare = plan_intervals(p);
    let place = places_by_end(bare.listed());
    let home = homes_by(&place, jobs_of(p));
    Layout { home, ..bare }
}

// How many intervals are past at border t: the next one is the current.
pub fn past_of(l: &Layout, t: u16) -> usize
    ensures { result ≡ past_in l.now t }
{
    l.listed().iter().take_while(|x| x.end <= t).count()
}
