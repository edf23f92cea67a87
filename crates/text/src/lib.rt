// The text buffer: a struct of the bytes that are lent and the place in them, whose methods write. Each writes what a
// text of specs/ says, cut where the bytes end; once something did not fit, the place is one past them and stays there.
#![tactic(auto)]

pub mod buffer;
pub mod decimal;
pub mod spaces;
pub mod words;
