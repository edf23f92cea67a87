// Replays leaf cases, a line of standard input each: a leaf's number in two digits, then a space and bytes to read,
// or a star and bytes behind which each of the 256 bytes is tried. Prints number, bytes taken, value and start;
// of the 256, the answer of byte 0 and then each byte whose answer differs from it.
#![tactic(auto)]

use leaf_call::call_leaf;
use leaf_call::reply::Reply;
use replay::{number, read_full};
use std::io;
use std::io::{Stdout, Write};

fn put_reply(out: &mut Stdout, r: Reply) -> io::Result<()> {
    let Reply {
        number,
        taken,
        value,
        start,
    } = r;
    write!(out, "\t{number}\t{taken}\t{value}\t{start}\n")
}

// Each byte in the last place of what is read.
fn run_letters(out: &mut Stdout, leaf: u32, bytes: &mut [u8]) -> io::Result<()> {
    let Some(last) = bytes.len().checked_sub(1) else {
        return Ok(());
    };
    bytes[last] = 0;
    let other = call_leaf(leaf, bytes, 0);
    out.write_all(b"other")?;
    put_reply(out, other)?;
    for c in 1..=255u8 {
        bytes[last] = c;
        let r = call_leaf(leaf, bytes, 0);
        if r != other {
            write!(out, "\t{c}")?;
            put_reply(out, r)?;
        }
    }
    Ok(())
}

// The star is moved behind the bytes, where each byte is tried.
fn run_line(out: &mut Stdout, line: &mut [u8]) -> io::Result<()> {
    if line.len() < 3 {
        return Ok(());
    }
    let leaf = number(&line[..2]) as u32;
    out.write_all(line)?;
    if line[2] != b'*' {
        return put_reply(out, call_leaf(leaf, line, 3));
    }
    out.write_all(b"\n")?;
    line.copy_within(3.., 2);
    run_letters(out, leaf, &mut line[2..])
}

fn main(rt: HostRuntime) -> io::Result<()> {
    let mut out = rt.stdout();
    let mut text = [0u8; 4096];
    let n = read_full(&mut rt.stdin(), &mut text)?;
    for line in text[..n].split_mut(|c| *c == b'\n') {
        run_line(&mut out, line)?;
    }
    Ok(())
}
