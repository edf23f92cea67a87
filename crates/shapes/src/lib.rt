// What stands at a place, as one of a few shapes: letters, numbers and ranges are read here, and what is left is to read parts and to close nodes.
#![tactic(auto)]

pub mod heads;
pub mod names;
pub mod symbols;
pub mod types;
