// The command buffer: its state, the way of a run through its text, and the table of strings and controls. Nothing here knows a plunger.
#![tactic(auto)]

pub mod course;
pub mod order;
