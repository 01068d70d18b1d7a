// The plan's record: levels, jobs, the table; its rules for limits, windows and budgets; the counts of table slots.
// The text is in plan_text, the judgement of a whole plan in acceptance.
#![tactic(auto)]

ghost use Rattle.std.specs.Prelude.{◌≡◌, map, take, length, ◌≤◌, ◌<◌};
ghost use Rattle.words.specs.Words.{every};
ghost use Rattle.answers.specs.Answer.{SlotLimit, JobLimit, ◌unless◌};
ghost use Rattle.plan.specs.Limits.{max_slots, max_jobs, one_to};
ghost use Rattle.plan.specs.Plan.{blank_job, blank_plan, jobs_of, is_hi, counts_at};
ghost use Rattle.plan.specs.Rules.{window_holds, budget_holds, windows_hold};
ghost use Rattle.plan.specs.Counts.{counted_with};

use answers::{Answer, Refusal};

pub const SLOTS: usize = 512;

pub const JOBS: usize = 32;

#[derive(Clone, Copy, PartialEq, Eq)]
pub enum Level {
    Lo,
    Hi,
}

#[derive(Clone, Copy)]
pub struct Job {
    pub level: Level,
    pub release: u16,
    pub deadline: u16,
    pub lo: u16,
    pub hi: u16,
}

// N is `slots`, n is `jobs`; the table names for each slot a job, or 0 for idle.
#[derive(Clone, Copy)]
pub struct Plan {
    pub slots: u16,
    pub jobs: u16,
    pub job: [Job; JOBS],
    pub table: [u16; SLOTS],
}

pub fn is_hi(j: Job) -> bool
    ensures { result ≡ is_hi j }
{
    j.level == Level::Hi
}

pub fn blank_job() -> Job
    ensures { result ≡ blank_job }
{
    Job {
        level: Level::Lo,
        release: 0,
        deadline: 0,
        lo: 0,
        hi: 0,
    }
}

pub fn blank_plan() -> Plan
    ensures { result ≡ blank_plan }
{
    Plan {
        slots: 0,
        jobs: 0,
        job: [blank_job(); JOBS],
        table: [0; SLOTS],
    }
}

// n is 1 to the limit.
fn one_to(limit: usize, n: u16) -> bool
    ensures { result ≡ one_to limit n }
{
    (1..=limit).contains(&usize::from(n))
}

// The first n of the jobs; n beyond the array means all of it.
pub fn first_jobs(job: &[Job; JOBS], n: u16) -> &[Job]
    ensures all { result.now ≡ take n job.now }
    ensures few { length result.now ≤ max_jobs }
{
    &job[..JOBS.min(usize::from(n))]
}

// The jobs of a plan; of a record with a larger n all that it has.
pub fn jobs_of(p: &Plan) -> &[Job]
    ensures jobs { result.now ≡ jobs_of p.now }
    ensures few { length result.now ≤ max_jobs }
{
    first_jobs(&p.job, p.jobs)
}

// 2: N not 1..512.
pub fn slot_limit(slots: u16) -> Answer
    ensures { result ≡ (SlotLimit unless one_to max_slots slots) }
{
    if one_to(SLOTS, slots) {
        Ok(())
    } else {
        Err(Refusal::SlotLimit)
    }
}

// 3: n not 1..32.
pub fn job_limit(jobs: u16) -> Answer
    ensures { result ≡ (JobLimit unless one_to max_jobs jobs) }
{
    if one_to(JOBS, jobs) {
        Ok(())
    } else {
        Err(Refusal::JobLimit)
    }
}

// r < d <= N.
#[tactic(auto, unfolding(crate::specs::Rules::window_holds))]
pub fn window_holds(slots: u16, j: Job) -> bool
    ensures { result ≡ window_holds slots j }
{
    j.release < j.deadline && j.deadline <= slots
}

// 1 <= lo <= hi <= N, and a LO job has lo = hi.
#[tactic(auto, unfolding(crate::specs::Rules::budget_holds))]
pub fn budget_holds(slots: u16, j: Job) -> bool
    ensures { result ≡ budget_holds slots j }
{
    1 <= j.lo && j.lo <= j.hi && j.hi <= slots && (is_hi(j) || j.lo == j.hi)
}

// Every window holds.
fn every_window(jobs: &[Job], slots: u16) -> bool
    ensures { result ≡ every (map (window_holds slots) jobs.now) }
{
    jobs.iter().all(|j| window_holds(slots, *j))
}

// N and n are within their limits and every window holds.
#[tactic(auto, unfolding(crate::specs::Rules::windows_hold))]
pub fn windows_hold(p: Plan) -> bool
    ensures { result ≡ windows_hold p }
{
    one_to(SLOTS, p.slots) && one_to(JOBS, p.jobs) && every_window(jobs_of(&p), p.slots)
}

// The counts with one more for job k.
#[tactic(auto, unfolding(crate::specs::Counts::counted_with))]
pub fn count_slot(counts: &mut [u16; JOBS], k: u16)
    ensures { counts.new ≡ counted_with counts.old k }
{
    if one_to(JOBS, k) {
        let count = &mut counts[usize::from(k) - 1];
        *count = count.saturating_add(1);
    }
}

// The counts of table slots at border t, one per job; past the table's end they stay.
pub fn counts_at(p: Plan, t: u16) -> [u16; JOBS]
    ensures { result ≡ counts_at p t }
{
    let mut counts = [0; JOBS];
    for k in &p.table[..SLOTS.min(usize::from(t))] {
        count_slot(&mut counts, *k);
    }
    counts
}
