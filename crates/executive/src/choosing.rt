// Who gets slot t, in either phase. What a choice is refused for is in going.rt.
ghost use Rattle.std.specs.Prelude.{◌≡◌, not, ◌&&◌};
ghost use Rattle.words.specs.Words.{◌≤?◌, below0, above0};
ghost use Rattle.entries.specs.Entry.{live};

use crate::going::Going;
use crate::{Choice, Phase};
use entries::{Entry, is_live};
use ready::{Slot, earliest, index, ready_hi_set};
use spares::Spare;

// The table's job k has its slot when it is live.
fn has_slot(k: u16, e: Entry) -> bool
    ensures { result ≡ ((1 ≤? k) && live e) }
{
    1 <= k && is_live(e)
}

// With these current spares the slot is open to all ready jobs, not to the HI jobs only.
fn open_to_all(hi: Spare, lo: Spare) -> bool
    ensures { result ≡ (above0 hi && not (below0 lo)) }
{
    0 < hi && 0 <= lo
}

impl Going<'_> {
    ghost use Rattle.executive.specs.Choice.{chosen_t, chosen_h, chosen, made_choice};

    // Phase T.
    fn chosen_t(&self) -> Slot
        ensures { result ≡ chosen_t self.now.run.now }
    {
        let r = self.run;
        let k = r.plan.table[usize::from(r.t)];
        if has_slot(k, r.entry[index(k)]) {
            return Slot::Job(k);
        }
        earliest(&r.plan.job, self.ready)
    }

    // Phase H.
    fn chosen_h(&self) -> Slot
        ensures { result ≡ chosen_h self.now.run.now }
    {
        let r = self.run;
        if open_to_all(self.hi, self.lo) {
            return earliest(&r.plan.job, self.ready);
        }
        let ready_hi = ready_hi_set(r.t, &r.plan.job, &r.entry, r.plan.jobs);
        earliest(&r.plan.job, ready_hi)
    }

    fn chosen(&self) -> Slot
        ensures { result ≡ chosen self.now.run.now }
    {
        match self.run.phase {
            Phase::T => self.chosen_t(),
            Phase::H => self.chosen_h(),
        }
    }

    // The slot, how many jobs are ready, and the current spares.
    pub(crate) fn choice(&self) -> Choice
        ensures { result ≡ made_choice self.now.run.now }
    {
        let slot = self.chosen();
        Choice {
            answer: Ok(()),
            slot,
            ready: self.ready.count_ones(),
            hi: self.hi,
            lo: self.lo,
        }
    }
}
