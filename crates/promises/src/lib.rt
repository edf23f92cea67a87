// What the public calls promise, as statements (specs/Promises.antt). Nothing here is to be run: it is proved.
#![tactic(auto)]

ghost use Rattle.promises.specs.Promises.{Promises, Demangles, Writes, Names, Parts};

use farthingmoss::{Counts, Refused};

// Proved only where every statement has a proof.
pub fn all_kept()
    ensures { Promises }
{}

// The calls promise what the statements say of them: each is proved only where the call's own promise is as strong.
pub fn reads(
    symbol: &[u8],
    flags: u32,
    depth: u32,
    table: &mut [u32],
    text: &mut [u8],
) -> Result<Counts, Refused>
    ensures { Demangles flags depth symbol.now table.old text.old result table.new text.new }
{
    farthingmoss::demangle(symbol, flags, depth, table, text)
}

pub fn writes(
    symbol: &[u8],
    flags: u32,
    depth: u32,
    table: &[u32],
    text: &mut [u8],
) -> Result<Counts, Refused>
    ensures { Writes flags depth symbol.now table.entry.now text.old result table.exit.now text.new }
{
    farthingmoss::write_table(symbol, flags, depth, table, text)
}

pub fn asks(symbol: &[u8], table: &[u32], n: u64) -> Result<Counts, Refused>
    ensures { Names symbol.now table.entry.now n result table.exit.now }
{
    farthingmoss::name_question(symbol, table, n)
}

pub fn parts<'a>(symbol: &'a [u8], table: &[u32], n: u64) -> &'a [u8]
    ensures { Parts symbol.now table.entry.now n result.now table.exit.now }
{
    farthingmoss::name_part(symbol, table, n)
}
