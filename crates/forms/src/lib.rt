// Leaves that say what a production begins with: a type, a nested name, a symbol and its type.
#![tactic(auto)]

pub mod begins;
pub mod start;
pub mod types;
