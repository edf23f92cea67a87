// The pieces of the text that hold no other, and walks along lists. What they write is said beside the text of a whole
// tree, in specs/Serializer.antt.
#![tactic(auto)]

pub mod flags;
pub mod lists;
pub mod names;
pub mod types;
