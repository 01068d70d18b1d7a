// Lines of text: `key=value` lines found and read on a slice and a place, numbers and keys written into a lent buffer.
// What the lines of a plan mean is in plan_text.
#![tactic(auto)]

pub mod counting;
pub mod reading;
pub mod writing;
