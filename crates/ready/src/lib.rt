// The ready jobs as one 32-bit set, job 1 at bit 0, and the earliest-deadline walk over a set. Who gets a slot is chosen in executive.
#![tactic(auto)]

ghost use Rattle.std.specs.Prelude.{◌≡◌, ◌-◌, ◌≤◌, ◌<◌, Bool, true, false, length, take};
ghost use mathlib.Core.List.{zip_with};
ghost use Rattle.plan.specs.Limits.{max_jobs};
ghost use Rattle.plan.specs.declared.Job.{Job};
ghost use Rattle.entries.specs.declared.Entry.{Entry};
ghost use Rattle.ready.specs.Ready.{is_ready, members_among, members_of, set_of, goes_before, better, earliest, among};

use entries::{Entry, is_live};
use plan::{JOBS, Job, first_jobs, is_hi};

// What a slot is given to.
#[derive(Clone, Copy)]
pub enum Slot {
    Job(u16),
    Idle,
}

// A job is ready while it is live, from its release on.
fn is_ready(t: u16, j: Job, e: Entry) -> bool
    ensures { result ≡ is_ready t j e }
{
    is_live(e) && j.release <= t
}

// The set of the jobs that pass the test, each with its entry.
fn set_where<F: Fn(Job, Entry) -> bool>(job: &[Job], entry: &[Entry], passes: F) -> u32
    requires callable { F.IsAlwaysCallable passes }
    requires few { length job.now ≤ max_jobs }
    requires known { length job.now ≤ length entry.now }
    ensures { (test : Job → Entry → Bool) → ((j : Job) → (e : Entry) → (b : Bool) → F.post passes j e b → b ≡ test j e) → result ≡ set_of (zip_with test job.now entry.now) }
{
    let mut set = 0;
    for (i, j) in job.iter().enumerate() {
        if passes(*j, entry[i]) {
            set |= 1 << i;
        }
    }
    set
}

// The set of the ready ones of the first n jobs; n beyond the array means all of it.
pub fn ready_set(t: u16, job: &[Job; JOBS], entry: &[Entry; JOBS], n: u16) -> u32
    ensures { result ≡ set_of (members_among false t (take n job.now) entry.now) }
{
    set_where(first_jobs(job, n), entry, |j, e| is_ready(t, j, e))
}

// The same of the ready HI jobs alone.
pub fn ready_hi_set(t: u16, job: &[Job; JOBS], entry: &[Entry; JOBS], n: u16) -> u32
    ensures { result ≡ set_of (members_among true t (take n job.now) entry.now) }
{
    set_where(
        first_jobs(job, n),
        entry,
        |j, e| is_ready(t, j, e) && is_hi(j),
    )
}

// Least deadline, then HI before LO; of two alike the lower number stays.
#[tactic(auto, unfolding(crate::specs::Ready::goes_before))]
fn goes_before(i: Job, j: Job) -> bool
    ensures { result ≡ goes_before i j }
{
    i.deadline < j.deadline || (i.deadline == j.deadline && is_hi(i) && !is_hi(j))
}

// The index of job k; 0 has that of job 1.
pub fn index(k: u16) -> usize
    ensures { (result ≡ k - 1) × (result < 65536) }
{
    usize::from(k.saturating_sub(1))
}

// Job k against the best of the lower numbers.
#[tactic(auto, unfolding(crate::specs::Ready::better))]
fn better(job: &[Job; JOBS], best: Slot, k: u16) -> Slot
    requires { among max_jobs best × (k ≤ max_jobs) }
    ensures { result ≡ better job.now best k }
{
    match best {
        Slot::Job(first) if !goes_before(job[index(k)], job[index(first)]) => best,
        _ => Slot::Job(k),
    }
}

// The member of earliest deadline, none means idle. Each turn takes the lowest member out.
pub fn earliest(job: &[Job; JOBS], set: u32) -> Slot
    ensures { result ≡ earliest job.now (members_of max_jobs set) }
{
    let mut best = Slot::Idle;
    let mut rest = set;
    while rest != 0 {
        let lowest = rest.trailing_zeros();
        best = better(job, best, lowest as u16 + 1);
        rest -= 1 << lowest;
    }
    best
}
