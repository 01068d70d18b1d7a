// What the two programs read and print, as functions on bytes and runs. Input and output themselves are in check_plan and run_plan.
#![tactic(auto)]

pub mod check;
mod print;
mod reports;
pub mod run;
