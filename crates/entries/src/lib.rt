// One job's entry: how it stands, what it was given, what a report makes of it, when it expires, what the tests of a run ask of it.
// The entries of a run, job by job, are gone through in executive.
#![tactic(auto)]

ghost use Rattle.std.specs.Prelude.{◌≡◌, replicate};
ghost use Rattle.plan.specs.Limits.{max_jobs};
ghost use Rattle.entries.specs.Entry.{how_it_stands, live, fresh_entry, standing_after, expired_entry, past_lo, settled, standing_holds};

use plan::{Job, is_hi};

// How a job stands: Waiting is live, the others are ended, with the border after that step.
#[derive(Clone, Copy)]
pub enum Standing {
    Waiting,
    Finished(u16),
    Cut(u16),
    Dropped(u16),
}

#[derive(Clone, Copy)]
pub struct Entry {
    pub standing: Standing,
    pub given: u16,
}

// What a report says of its slot.
#[derive(Clone, Copy)]
pub enum Kind {
    End,
    More,
    None,
}

// The border at which the job ended; None while it is live: the one place that goes by the letter.
pub fn ended_at(standing: Standing) -> Option<u16>
    ensures { result ≡ how_it_stands standing }
{
    match standing {
        Standing::Waiting => None,
        Standing::Finished(at) | Standing::Cut(at) | Standing::Dropped(at) => Some(at),
    }
}

pub fn is_live(e: Entry) -> bool
    ensures { result ≡ live e }
{
    ended_at(e.standing).is_none()
}

// Every entry waiting with 0 given.
pub fn fresh_entries() -> [Entry; plan::JOBS]
    ensures { result ≡ replicate max_jobs fresh_entry }
{
    let fresh = Entry {
        standing: Standing::Waiting,
        given: 0,
    };
    [fresh; plan::JOBS]
}

// How the job that ran stands at the border after its slot.
#[tactic(auto, unfolding(crate::specs::Entry::standing_after))]
pub fn standing_after(kind: Kind, hi: u16, given: u16, border: u16, before: Standing) -> Standing
    ensures { result ≡ standing_after kind hi given border before }
{
    match kind {
        Kind::End => Standing::Finished(border),
        Kind::More if given == hi => Standing::Cut(border),
        Kind::More | Kind::None => before,
    }
}

// A live LO job is dropped at its deadline.
#[tactic(auto, unfolding(crate::specs::Entry::expired_entry))]
pub fn expired_entry(t: u16, j: Job, e: Entry) -> Entry
    ensures { result ≡ expired_entry t j e }
{
    if is_live(e) && !is_hi(j) && j.deadline <= t {
        Entry {
            standing: Standing::Dropped(t),
            ..e
        }
    } else {
        e
    }
}

// A live HI job that has had its lo and is not ended.
#[tactic(auto, unfolding(crate::specs::Entry::past_lo))]
pub fn past_lo(j: Job, e: Entry) -> bool
    ensures { result ≡ past_lo j e }
{
    is_live(e) && is_hi(j) && j.lo <= e.given
}

// What the return test asks of one job; `count` is its table slots before t.
#[tactic(auto, unfolding(crate::specs::Entry::settled))]
pub fn settled(j: Job, e: Entry, count: u16) -> bool
    ensures { result ≡ settled j e count }
{
    !is_live(e) || (count <= e.given && !past_lo(j, e))
}

// What coherence asks of one job: a live one is below hi, an ended one has had at most hi, and its border is not after t.
#[tactic(auto, unfolding(crate::specs::Entry::standing_holds))]
pub fn standing_holds(t: u16, hi: u16, given: u16, standing: Standing) -> bool
    ensures { result ≡ standing_holds t hi given standing }
{
    match ended_at(standing) {
        None => given < hi,
        Some(border) => given <= hi && border <= t,
    }
}
