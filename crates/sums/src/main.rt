// The sums that are run: limits, bad texts, records that no text has, and reports out of turn.
// One line for each case; the file stdout has what they should be.
#![tactic(auto)]

mod print;
mod records;
mod runs;
mod texts;

use std::io;

fn main(rt: HostRuntime) -> io::Result<()> {
    texts::limits(&rt)?;
    texts::bad_numbers(&rt)?;
    texts::bad_lines(&rt)?;
    texts::cut_at_every_byte(&rt)?;
    records::limits(&rt)?;
    records::large_numbers(&rt)?;
    records::room(&rt)?;
    runs::out_of_turn(&rt)?;
    runs::incoherent(&rt)
}
