// The spares of a plan's intervals: the work of jobs, a row of spares, both rows of a border, the current spare of a row.
// The intervals are laid out in intervals; whether a plan is accepted is judged in acceptance.
#![tactic(auto)]

ghost use Rattle.std.specs.Prelude.{◌≡◌, ◌+◌, ◌≤◌, ◌<◌, ◌^◌, take};
ghost use Rattle.std.proofs.Math.IntN.{sub_ℕ};
ghost use Rattle.spares.specs.Spares.{hi_left, lo_left, no_spares, same_row};
ghost use Rattle.spares.specs.InLayout.{row_in, current_in};
ghost use Rattle.spares.specs.Debt.{room, asked};
ghost use Rattle.spares.specs.Work.{work_of, rows_in};

use debt::work_by_home;
use entries::Entry;
use intervals::{INTERVALS, Interval, Layout, past_of};
use plan::{JOBS, Job, first_jobs, is_hi};
use work::work_of;

pub mod debt;
mod work;

// What an interval has to spare.
pub type Spare = i32;

// The spares of the intervals in order, 0 beyond the last.
pub type Row = [Spare; INTERVALS];

// Both rows of one border.
#[derive(Clone, Copy)]
pub struct Rows {
    pub hi: Row,
    pub lo: Row,
}

// a - b as a signed number.
fn signed(a: u64, b: u64) -> Spare
    requires { (a < 2 ^ 30) × (b < 2 ^ 30) }
    ensures { result ≡ sub_ℕ a b }
{
    a as i32 - b as i32
}

// The work a job asks of the HI spares: only a live HI job asks any.
#[tactic(auto, unfolding(crate::specs::Spares::hi_left))]
pub fn hi_left(j: Job, live: bool, given: u16) -> u16
    ensures { result ≡ hi_left j live given }
{
    if live && is_hi(j) {
        j.hi.saturating_sub(given)
    } else {
        0
    }
}

// The work a job asks of the LO spares: every live job, of either level.
#[tactic(auto, unfolding(crate::specs::Spares::lo_left))]
pub fn lo_left(j: Job, live: bool, given: u16) -> u16
    ensures { result ≡ lo_left j live given }
{
    if live { j.lo.saturating_sub(given) } else { 0 }
}

// What an interval has left at border t.
fn room_left(x: Interval, t: u16) -> u64
    ensures { (result ≡ room t x) × (result < 65536) }
{
    u64::from(x.end.saturating_sub(x.start.max(t)))
}

// What is asked of an interval at border t: its work and the later ones' debt, nothing once it is past.
#[tactic(auto, unfolding(crate::specs::Debt::asked))]
fn asked_of(x: Interval, t: u16, work: u32, debt: u64) -> u64
    requires { debt < 2 ^ 40 }
    ensures { (result ≡ asked t x work debt) × (result ≤ work + debt) }
{
    if x.end <= t {
        0
    } else {
        u64::from(work) + debt
    }
}

// The spares of a layout at border t for this work, a number a job. Worked out last first; the debt is what later intervals borrow.
pub fn row_of(l: &Layout, t: u16, work: &[u16; JOBS]) -> Row
    ensures { result ≡ row_in l.now t work.now }
{
    let listed = l.listed();
    let sums = work_by_home(&l.home, work);
    let mut row = blank_row();
    let mut debt = 0;
    for i in (0..listed.len()).rev() {
        let free = room_left(listed[i], t);
        let ask = asked_of(listed[i], t, sums[i], debt);
        row[i] = signed(free, ask);
        debt = ask.saturating_sub(free);
    }
    row
}

// Both rows of a layout at border t, for the first n jobs with these entries; n beyond the array means all of it.
pub fn rows_of(l: &Layout, t: u16, job: &[Job; JOBS], entry: &[Entry; JOBS], n: u16) -> Rows
    ensures { result ≡ rows_in l.now t (work_of (take n job.now) entry.now) }
{
    let work = work_of(first_jobs(job, n), entry);
    Rows {
        hi: row_of(l, t, &work.hi),
        lo: row_of(l, t, &work.lo),
    }
}

// A row of spares of 0.
pub fn blank_row() -> Row
    ensures { result ≡ no_spares }
{
    [0; INTERVALS]
}

// Two rows have the same spares.
pub fn same_row(a: &Row, b: &Row) -> bool
    ensures { result ≡ same_row a.now b.now }
{
    a == b
}

// The current spare of a row: that of the interval which holds slot t; beyond the row there is 0.
#[tactic(auto, unfolding(crate::specs::InLayout::current_in))]
pub fn current(l: &Layout, t: u16, row: &Row) -> Spare
    ensures { result ≡ current_in l.now t row.now }
{
    row.get(past_of(l, t)).copied().unwrap_or(0)
}
