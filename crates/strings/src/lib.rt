// Encoded strings of a symbol: one definition decodes a character.
#![tactic(auto)]

pub mod encoded;
