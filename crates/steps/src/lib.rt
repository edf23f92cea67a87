// The steps of a reading, one for each instruction and word of the grammar's language: taking bytes, opening a part, the memo, closing a node.
#![tactic(auto)]

pub mod close;
pub mod leaves;
pub mod memo;
pub mod reader;
pub mod state;
