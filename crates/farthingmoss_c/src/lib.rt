// The calls for programs in C and Rust: those of farthingmoss, exported, each with its clauses.
#![tactic(auto)]

ghost use Rattle.std.specs.Prelude.{◌≡◌, length};
ghost use Rattle.farthingmoss.specs.Call.{reported, demangled, table_after, text_after, written_alone, text_alone, name_report};

use farthingmoss::exports;

// How many cells a node takes.
#[unsafe(no_mangle)]
pub extern "C" fn farthingmoss_node_cells() -> usize
    ensures { result ≡ 12 }
{
    exports::farthingmoss_node_cells()
}

#[unsafe(no_mangle)]
pub extern "C" fn farthingmoss_read(
    symbol: &[u8],
    flags: u32,
    depth: u32,
    table: &mut [u32],
    text: &mut [u8],
    report: &mut [u64; 5],
)
    ensures table_after { table.new ≡ table_after flags depth symbol.now table.old }
    ensures text_after { text.new ≡ text_after flags depth symbol.now table.old text.old }
    ensures report_after { report.new ≡ reported (demangled flags depth symbol.now table.old (length text.old)) report.old }
{
    exports::farthingmoss_read(symbol, flags, depth, table, text, report);
}

#[unsafe(no_mangle)]
pub extern "C" fn farthingmoss_write(
    symbol: &[u8],
    flags: u32,
    depth: u32,
    table: &[u32],
    text: &mut [u8],
    report: &mut [u64; 5],
)
    ensures table_value { table.exit.now ≡ table.entry.now }
    ensures text_after { text.new ≡ text_alone flags depth symbol.now table.now text.old }
    ensures report_after { report.new ≡ reported (written_alone flags depth symbol.now table.now (length text.old)) report.old }
{
    exports::farthingmoss_write(symbol, flags, depth, table, text, report);
}

// Where a plain name starts in the symbol, and how long it is, stand in the last two places.
#[unsafe(no_mangle)]
pub extern "C" fn farthingmoss_name(symbol: &[u8], table: &[u32], n: u64, report: &mut [u64; 5])
    ensures table_value { table.exit.now ≡ table.entry.now }
    ensures report_after { report.new ≡ name_report symbol.now table.now n report.old }
{
    exports::farthingmoss_name(symbol, table, n, report);
}
