// Replays readings, a line of standard input each: a depth in three digits, a number of nodes in four, a space, and a symbol.
// Prints the line, and the reading's number and offset.
#![tactic(auto)]

use replay::{number, read_full};
use std::io;
use std::io::{Stdout, Write};

const CELLS: usize = 120_000;

fn run_line(out: &mut Stdout, line: &[u8], table: &mut [u32]) -> io::Result<()> {
    if line.len() < 8 {
        return Ok(());
    }
    let depth = number(&line[..3]);
    let nodes = number(&line[3..7]);
    let cells = nodes * node::CELLS;
    if table.len() < cells {
        return Ok(());
    }
    let r = reader::read(&line[8..], &mut table[..cells], depth as u16);
    let number = match r.answer {
        Ok(_) => 0,
        Err(why) => why.number(),
    };
    let at = r.state.at;
    out.write_all(line)?;
    write!(out, "\t{number}\t{at}\n")
}

fn main(rt: HostRuntime) -> io::Result<()> {
    let mut out = rt.stdout();
    let mut table = [0u32; CELLS];
    let mut text = [0u8; 65_536];
    let n = read_full(&mut rt.stdin(), &mut text)?;
    for line in text[..n].split(|c| *c == b'\n') {
        run_line(&mut out, line, &mut table)?;
    }
    Ok(())
}
