// Replays readings with their text, a line of standard input each: a flag word in eight digits, the room for the text in four, a space, and a symbol.
// Prints the line, the number (0, 6, or the reader's), and what the call left in the text: up to three bytes after a text that fitted.
#![tactic(auto)]

ghost use Rattle.std.specs.Prelude.{◌≤◌};

use replay::{number, read_full};
use scan::limits::DEEPEST_READING;
use std::io;
use std::io::{Stdout, Write};

const CELLS: usize = 120_000;

const BYTES: usize = 9_999;

// How much of the buffer is shown.
fn shown(room: usize, w: Option<usize>) -> usize
    ensures { result ≤ room }
{
    match w {
        Some(n) => room.min(n.saturating_add(3)),
        None => room,
    }
}

fn run_text(
    out: &mut Stdout,
    symbol: &[u8],
    table: &[u32],
    text: &mut [u8],
    root: u16,
    flags: u32,
) -> io::Result<()> {
    let w = writer::write(table, symbol, text, root as usize + 1, flags);
    let number = if w.is_some() { 0 } else { 6 };
    write!(out, "{number}\t")?;
    out.write_all(&text[..shown(text.len(), w)])
}

fn run_symbol(
    out: &mut Stdout,
    symbol: &[u8],
    table: &mut [u32],
    text: &mut [u8],
    flags: u32,
) -> io::Result<()> {
    let r = reader::read(symbol, table, DEEPEST_READING);
    match r.answer {
        Ok(root) => run_text(out, symbol, table, text, root, flags),
        Err(why) => {
            let number = why.number();
            write!(out, "{number}")
        }
    }
}

fn run_line(out: &mut Stdout, line: &[u8], table: &mut [u32], text: &mut [u8]) -> io::Result<()> {
    if line.len() < 13 {
        return Ok(());
    }
    let flags = number(&line[..8]);
    let room = number(&line[8..12]);
    if text.len() < room {
        return Ok(());
    }
    text.fill(b'.');
    out.write_all(line)?;
    out.write_all(b"\t")?;
    run_symbol(out, &line[13..], table, &mut text[..room], flags as u32)?;
    out.write_all(b"\n")
}

fn main(rt: HostRuntime) -> io::Result<()> {
    let mut out = rt.stdout();
    let mut table = [0u32; CELLS];
    let mut text = [0u8; BYTES];
    let mut lines = [0u8; 65_536];
    let n = read_full(&mut rt.stdin(), &mut lines)?;
    for line in lines[..n].split(|c| *c == b'\n') {
        run_line(&mut out, line, &mut table, &mut text)?;
    }
    Ok(())
}
