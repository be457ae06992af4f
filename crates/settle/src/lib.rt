// What is worked out in a body; rows worked out until none is due; and what goes before that, for the crates above.
#![tactic(auto)]

pub mod due;
pub mod reach;
pub mod source;
pub mod survey;
