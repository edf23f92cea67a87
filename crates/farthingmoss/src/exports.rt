// The calls as programs in C and Rust have them: the crate farthingmoss_c exports each under its name here.
// A report is number, offset, depth, nodes and text length.
ghost use Rattle.std.specs.Prelude.{◌≡◌, length};
ghost use Rattle.farthingmoss.specs.Call.{filled, reported, demangled, table_after, text_after, written_alone, text_alone, name_report};

use crate::{Counts, Refused, demangle, name_question, write_table};
use node::cells;

fn fill_report(report: &mut [u64; 5], number: u8, c: Counts)
    ensures { report.new ≡ filled report.old number c.offset c.depth c.nodes c.text }
{
    report[0] = number as u64;
    report[1] = c.offset as u64;
    report[2] = c.depth as u64;
    report[3] = c.nodes as u64;
    report[4] = c.text as u64;
}

// Tells an answer.
fn tell(report: &mut [u64; 5], a: Result<Counts, Refused>)
    ensures { report.new ≡ reported a report.old }
{
    match a {
        Ok(c) => fill_report(report, 0, c),
        Err(e) => fill_report(report, e.number(), e.counts()),
    }
}

// How many cells a node takes.
pub fn farthingmoss_node_cells() -> usize
    ensures { result ≡ 12 }
{
    node::CELLS
}

pub fn farthingmoss_read(
    symbol: &[u8],
    flags: u32,
    depth: u32,
    table: &mut [u32],
    text: &mut [u8],
    report: &mut [u64; 5],
)
    ensures table_after { table.new ≡ table_after flags depth symbol.now table.old }
    ensures text_after { text.new ≡ text_after flags depth symbol.now table.old text.old }
    ensures report_after { report.new ≡ reported (demangled flags depth symbol.now table.old (length text.old)) report.old }
{
    let a = demangle(symbol, flags, depth, table, text);
    tell(report, a);
}

pub fn farthingmoss_write(
    symbol: &[u8],
    flags: u32,
    depth: u32,
    table: &[u32],
    text: &mut [u8],
    report: &mut [u64; 5],
)
    ensures table_value { table.exit.now ≡ table.entry.now }
    ensures text_after { text.new ≡ text_alone flags depth symbol.now table.now text.old }
    ensures report_after { report.new ≡ reported (written_alone flags depth symbol.now table.now (length text.old)) report.old }
{
    let a = write_table(symbol, flags, depth, table, text);
    tell(report, a);
}

// Where a plain name starts in the symbol, and how long it is, stand in the last two places.
pub fn farthingmoss_name(symbol: &[u8], table: &[u32], n: u64, report: &mut [u64; 5])
    ensures table_value { table.exit.now ≡ table.entry.now }
    ensures report_after { report.new ≡ name_report symbol.now table.now n report.old }
{
    let a = name_question(symbol, table, n);
    tell(report, a);
    if a.is_ok() {
        let part = Counts {
            offset: 0,
            depth: 0,
            nodes: node::cell(table, n as usize, cells::P),
            text: node::cell(table, n as usize, cells::Q),
        };
        fill_report(report, 0, part);
    }
}
