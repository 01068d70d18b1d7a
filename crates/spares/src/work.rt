// The work that jobs have left, for both rows. How a row comes from the work is in lib.rt.
ghost use Rattle.std.specs.Prelude.{◌≡◌, ◌≤◌, ℕ, length};
ghost use mathlib.Core.List.{zip_with};
ghost use Rattle.words.specs.Words.{filled};
ghost use Rattle.plan.specs.Limits.{max_jobs};
ghost use Rattle.plan.specs.declared.Job.{Job};
ghost use Rattle.entries.specs.declared.Entry.{Entry};
ghost use Rattle.spares.specs.Work.{work_of};

use crate::{hi_left, lo_left};
use entries::{Entry, is_live};
use plan::{JOBS, Job};

// The work for the HI row and for the LO row, one number a job.
#[derive(Clone, Copy)]
pub(crate) struct Work {
    pub(crate) hi: [u16; JOBS],
    pub(crate) lo: [u16; JOBS],
}

// What each job with its entry has left, 0 beyond the jobs.
fn work_each<F: Fn(Job, Entry) -> u16>(job: &[Job], entry: &[Entry], left: F) -> [u16; JOBS]
    requires callable { F.IsAlwaysCallable left }
    requires few { length job.now ≤ max_jobs }
    requires known { length job.now ≤ length entry.now }
    ensures { (each : Job → Entry → ℕ) → ((j : Job) → (e : Entry) → (n : ℕ) → F.post left j e n → n ≡ each j e) → result ≡ filled max_jobs 0 (zip_with each job.now entry.now) }
{
    let mut work = [0; JOBS];
    for (i, j) in job.iter().enumerate() {
        work[i] = left(*j, entry[i]);
    }
    work
}

// The work of these jobs for both rows.
pub(crate) fn work_of(job: &[Job], entry: &[Entry; JOBS]) -> Work
    requires { length job.now ≤ max_jobs }
    ensures { result ≡ work_of job.now entry.now }
{
    Work {
        hi: work_each(job, entry, |j, e| hi_left(j, is_live(e), e.given)),
        lo: work_each(job, entry, |j, e| lo_left(j, is_live(e), e.given)),
    }
}
