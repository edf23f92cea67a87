// The bytes of a symbol: what each leaf of the crate's parser reads from a place on.
// Each function takes the symbol and a place; its contract says the answer by what remains of the symbol there.
// A place past the end is the end. What a leaf takes is counted in bytes from the place.
#![tactic(auto)]

pub mod cursor;
pub mod limits;
pub mod name;
pub mod number;
