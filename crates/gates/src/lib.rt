// What refuses a call before anything is read.
#![tactic(auto)]

ghost use Rattle.std.specs.Prelude.{◌≡◌};
ghost use Rattle.gates.specs.Gates.{known_flags, high_at, symbol_gate, gate};

use scan::limits::{DEEPEST_READING, LONGEST_SYMBOL};

// The gate that is closed: for the budgets, for the length of the symbol, or for a byte that is not ASCII, and where.
#[derive(Clone, Copy, Debug, PartialEq, Eq)]
pub enum Closed {
    Call,
    Symbol,
    High(usize),
}

const DEPTH_MOST: u32 = DEEPEST_READING as u32;

// Where the unknown bits of a flag word begin, and how many stand together.
const BIT_3: u32 = 8;

const BIT_8: u32 = 256;

const BIT_13: u32 = 8_192;

const BIT_25: u32 = 33_554_432;

const ONE_BIT: u32 = 2;

const TWO_BITS: u32 = 4;

const SEVEN_BITS: u32 = 128;

// Bytes from here on are not ASCII.
const HIGH: u8 = 128;

// Whether each bit of the flag word is known.
#[tactic(auto, unfolding(crate::specs::Gates::known_flags))]
fn are_known(flags: u32) -> bool
    ensures { result ≡ known_flags flags }
{
    flags % ONE_BIT == 0
        && flags / BIT_3 % TWO_BITS == 0
        && flags / BIT_8 % ONE_BIT == 0
        && flags / BIT_13 % SEVEN_BITS == 0
        && flags / BIT_25 % SEVEN_BITS == 0
}

// Where the first byte of 128 or more stands.
fn high_at(symbol: &[u8]) -> Option<usize>
    ensures { result ≡ high_at symbol.now }
{
    symbol.iter().position(|&c| HIGH <= c)
}

#[tactic(auto, unfolding(crate::specs::Gates::symbol_gate))]
pub fn symbol_gate(symbol: &[u8]) -> Result<(), Closed>
    ensures { result ≡ symbol_gate symbol.now }
{
    if symbol.is_empty() || LONGEST_SYMBOL < symbol.len() {
        return Err(Closed::Symbol);
    }
    match high_at(symbol) {
        Some(at) => Err(Closed::High(at)),
        None => Ok(()),
    }
}

#[tactic(auto, unfolding(crate::specs::Gates::gate))]
pub fn call_gate(flags: u32, depth: u32, symbol: &[u8]) -> Result<(), Closed>
    ensures { result ≡ gate flags depth symbol.now }
{
    if DEPTH_MOST < depth || !are_known(flags) {
        return Err(Closed::Call);
    }
    symbol_gate(symbol)
}
