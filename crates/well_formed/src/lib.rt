// Checks 2 to 7 and 17 of a plan record. 8 is in window_sums, 9 and the analysis are in acceptance.
#![tactic(auto)]

ghost use Rattle.std.specs.Prelude.{◌≡◌, ◌&&◌, ◌||◌, ◌+◌, ◌-◌, ◌≤◌, ◌<◌, length, get_or, Err, IfSome};
ghost use Rattle.std.specs.Option.{MatchOption};
ghost use Rattle.std.specs.Result.{MatchResult, IsErrAnd};
ghost use Rattle.words.specs.Words.{◌≤?◌, ◌<?◌, ◌=?◌};
ghost use Rattle.answers.specs.Answer.{Accepted};
ghost use Rattle.plan.specs.Limits.{max_slots, max_jobs};
ghost use Rattle.plan.specs.Plan.{blank_job, slots_of, counts_at};
ghost use Rattle.well_formed.specs.WellFormed.{check4, check5, check6, check7, check17, well_formed};
ghost use Rattle.well_formed.specs.RunWords.{no_runs, runs_with, runs_from};

use answers::{Answer, Refusal};
use plan::{Job, Plan};

// A job's table slots form at most so many runs.
const MAX_RUNS: u16 = 4;

// The refusal with a job's number, where a rule is found broken at its place.
fn refused<R: Fn(u16) -> Refusal>(place: Option<usize>, refusal: R) -> Answer
    requires callable { R.IsAlwaysCallable refusal }
    requires within { IfSome place (λ i. i < max_jobs) }
    ensures { MatchOption place (result ≡ Accepted) (λ i. IsErrAnd result (λ e. R.post refusal (i + 1) e)) }
{
    match place {
        Some(i) => Err(refusal(i as u16 + 1)),
        None => Ok(()),
    }
}

// 4: the first of the jobs whose window breaks r < d <= N.
fn check4(p: &Plan) -> Answer
    ensures { result ≡ check4 p.now }
{
    let jobs = plan::jobs_of(p);
    refused(
        jobs.iter().position(|j| !plan::window_holds(p.slots, *j)),
        Refusal::Window,
    )
}

// 5: the first of the jobs that breaks a budget rule.
fn check5(p: &Plan) -> Answer
    ensures { result ≡ check5 p.now }
{
    let jobs = plan::jobs_of(p);
    refused(
        jobs.iter().position(|j| !plan::budget_holds(p.slots, *j)),
        Refusal::Budget,
    )
}

// The table's entry k for slot t is idle, or names one of the jobs within its window.
fn entry_holds(jobs: &[Job], t: u16, k: u16) -> bool
    ensures { result ≡ ((k =? 0) || ((k ≤? length jobs.now) && ((get_or jobs.now (k - 1) blank_job).release ≤? t) && (t <? (get_or jobs.now (k - 1) blank_job).deadline))) }
{
    if k == 0 {
        return true;
    }
    match jobs.get(usize::from(k) - 1) {
        Some(j) => j.release <= t && t < j.deadline,
        None => false,
    }
}

// The table slots and the runs of each job, as the scan of a table that check 6 accepts gives them.
#[derive(Clone, Copy)]
struct Scanned {
    counts: [u16; plan::JOBS],
    runs: [u16; plan::JOBS],
}

// Slot k counted among the runs, the slot before naming `before`: one that does not go on that row counts for its job.
fn count_run(runs: &mut [u16; plan::JOBS], before: u16, k: u16)
    ensures { runs.new ≡ runs_with runs.old before k }
{
    if k != before {
        plan::count_slot(runs, k);
    }
}

// 6: one scan of the first N slots, which counts them for check 7 and their runs for check 17.
fn check6(p: &Plan) -> Result<Scanned, Refusal>
    requires { (p.now.slots ≤ max_slots) × (p.now.jobs ≤ max_jobs) }
    ensures { MatchResult result (λ s. (check6 p.now ≡ Accepted) × (s.counts ≡ counts_at p.now p.now.slots) × (s.runs ≡ runs_from 0 no_runs (slots_of p.now))) (λ e. check6 p.now ≡ Err e) }
{
    let jobs = plan::jobs_of(p);
    let mut counts = [0; plan::JOBS];
    let mut runs = [0; plan::JOBS];
    let mut before = 0;
    for t in 0..p.slots {
        let k = p.table[usize::from(t)];
        if !entry_holds(jobs, t, k) {
            return Err(Refusal::TableSlot(t));
        }
        plan::count_slot(&mut counts, k);
        count_run(&mut runs, before, k);
        before = k;
    }
    Ok(Scanned { counts, runs })
}

// 7: the first of the jobs whose table slots are not lo in number, by the counts of the whole table.
fn check7(p: &Plan, counts: [u16; plan::JOBS]) -> Answer
    ensures { counts ≡ counts_at p.now p.now.slots → result ≡ check7 p.now }
{
    let jobs = plan::jobs_of(p);
    refused(
        jobs.iter()
            .zip(counts.iter())
            .position(|(j, count)| *count != j.lo),
        Refusal::TableCount,
    )
}

// 17: the first of the jobs with more than four runs, by the runs of the whole table.
fn check17(p: &Plan, runs: [u16; plan::JOBS]) -> Answer
    requires { p.now.slots ≤ max_slots }
    ensures { runs ≡ runs_from 0 no_runs (slots_of p.now) → result ≡ check17 p.now }
{
    let runs = &runs[..plan::jobs_of(p).len()];
    refused(runs.iter().position(|n| MAX_RUNS < *n), Refusal::Chopped)
}

// Checks 2 to 7 and 17, in their order.
pub fn well_formed(p: Plan) -> Answer
    ensures { result ≡ well_formed p }
{
    plan::slot_limit(p.slots)?;
    plan::job_limit(p.jobs)?;
    check4(&p)?;
    check5(&p)?;
    let scanned = check6(&p)?;
    check7(&p, scanned.counts)?;
    check17(&p, scanned.runs)
}
