// Tables with an entry for each border: the longest window that ends there, the place of the interval that ends there.
// The intervals are laid out in lib.rt.
ghost use Rattle.std.specs.Prelude.{◌≡◌, map, ◌≤◌, length};
ghost use Rattle.words.specs.Words.{filled};
ghost use Rattle.plan.specs.Limits.{max_slots, max_jobs};
ghost use Rattle.intervals.specs.Intervals.{max_intervals};
ghost use Rattle.intervals.specs.ByDeadline.{DueInTime, LongestWindows, NextDeadline, PlacesFrom, entry_for};

use crate::{INTERVALS, Interval};
use plan::{JOBS, Job};

// Borders 0 to 512: every deadline of windows that hold is one of them.
pub(crate) const BORDERS: usize = 513;

// For each border the length of the longest of the jobs' windows that ends there, 0 where none does.
pub(crate) fn longest_windows(job: &[Job]) -> [u16; BORDERS]
    requires { DueInTime job.now }
    ensures { LongestWindows job.now result }
{
    let mut longest = [0; BORDERS];
    for j in job {
        let e = usize::from(j.deadline);
        longest[e] = longest[e].max(j.deadline.saturating_sub(j.release));
    }
    longest
}

// The first border after m where a window ends.
pub(crate) fn next_deadline(longest: &[u16; BORDERS], m: u16, slots: u16) -> Option<u16>
    requires { (m ≤ slots) × (slots ≤ max_slots) }
    ensures { NextDeadline longest.now m slots result }
{
    for e in m + 1..=slots {
        if 0 < longest[usize::from(e)] {
            return Some(e);
        }
    }
    None
}

// For each border the place of the first of the intervals that ends there, their count where none does.
pub(crate) fn places_by_end(interval: &[Interval]) -> [u16; BORDERS]
    requires { length interval.now ≤ max_intervals }
    ensures { PlacesFrom 0 interval.now result }
{
    let mut place = [interval.len() as u16; BORDERS];
    for i in (0..interval.len()).rev() {
        let e = usize::from(interval[i].end);
        if e < BORDERS {
            place[e] = i as u16;
        }
    }
    place
}

// The table's entry for a deadline; 0 for one beyond the table.
#[tactic(auto, unfolding(crate::specs::ByDeadline::entry_for))]
fn entry_for(table: &[u16; BORDERS], deadline: u16) -> u16
    ensures { result ≡ entry_for table.now deadline }
{
    table.get(usize::from(deadline)).copied().unwrap_or(0)
}

// The home of each job by the table of places; an entry beyond the jobs has none.
pub(crate) fn homes_by(place: &[u16; BORDERS], job: &[Job]) -> [u16; JOBS]
    requires { length job.now ≤ max_jobs }
    ensures { result ≡ filled max_jobs max_intervals (map (λ j. entry_for place.now j.deadline) job.now) }
{
    let mut home = [INTERVALS as u16; JOBS];
    for (i, j) in job.iter().enumerate() {
        home[i] = entry_for(place, j.deadline);
    }
    home
}
