// The state of a reading, declared beside the language that reads.
// As many names and types are stored in a memo as there are digits to name them.
#![tactic(auto)]

pub const ENTRIES: usize = 10;

pub type Entries = [u16; ENTRIES];

#[derive(Clone, Copy)]
pub struct Memo {
    pub names: Entries,
    pub types: Entries,
    pub names_len: u8,
    pub types_len: u8,
}

#[derive(Clone, Copy)]
pub struct State {
    pub at: u16,
    pub used: u16,
    pub deep: u16,
    pub memo: Memo,
}

#[derive(Clone, Copy)]
pub enum Refusal {
    Syntax,
    Deep,
    Full,
}
