// The plan text: reader and writer.
#![tactic(auto)]

pub mod reader;
pub mod writer;

use answers::Answer;
use plan::Plan;

// The plan that was read, or a refusal beside the blank plan.
#[derive(Clone, Copy)]
pub struct PlanRead {
    pub answer: Answer,
    pub plan: Plan,
}
