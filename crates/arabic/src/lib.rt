// The Rust's arabic.rs: the tables, the steps, and the stem on an environment.
// Some functions are marked inline(always), where that spares a copy of the environment, which a call makes, and some inline(never), where
// the function copied in would cost more copies than the call.
#![tactic(auto)]

pub mod a_0;
pub mod changes;
pub mod context;
pub mod kind;
pub mod normalize;
pub mod noun_nest;
pub mod prefix_halves;
pub mod prefix_nest;
pub mod prefix_steps;
pub mod stem;
pub mod suffix_halves;
pub mod suffix_nest;
pub mod suffix_steps;
pub mod tables;
pub mod tried;
pub mod verb_nest;
