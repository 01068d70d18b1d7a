// The sums of work by interval, and whether they leave the current interval in debt. Whole rows of spares are in lib.rt.
ghost use Rattle.std.specs.Prelude.{◌≡◌};
ghost use Rattle.spares.specs.Debt.{sums_by_home, in_debt};

use crate::{asked_of, room_left};
use intervals::{INTERVALS, Layout, past_of};
use plan::JOBS;

// The work at home in each place, in one pass over the jobs; a home beyond the last place counts nowhere.
pub fn work_by_home(home: &[u16; JOBS], work: &[u16; JOBS]) -> [u32; INTERVALS]
    ensures { result ≡ sums_by_home home.now work.now }
{
    let mut sums = [0; INTERVALS];
    for (k, place) in home.iter().enumerate() {
        let place = usize::from(*place);
        if place < INTERVALS {
            sums[place] += u32::from(work[k]);
        }
    }
    sums
}

// At border t the current interval is in debt: the intervals from the last down to it ask more than their room.
pub fn in_debt(l: &Layout, t: u16, sums: &[u32; INTERVALS]) -> bool
    ensures { result ≡ in_debt l.now t sums.now }
{
    let listed = l.listed();
    let mut debt = 0;
    for i in (past_of(l, t)..listed.len()).rev() {
        let x = listed[i];
        debt = asked_of(x, t, sums[i], debt).saturating_sub(room_left(x, t));
    }
    0 < debt
}
