// The limits of a reading, each in one place: the longest symbol, the deepest reading, the most nodes that it may count.
pub const LONGEST_SYMBOL: usize = 4_096;

pub const DEEPEST_READING: u16 = 200;

pub const MOST_NODES: usize = 2 * LONGEST_SYMBOL;
