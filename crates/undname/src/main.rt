// The symbols of a log, a line of standard input each. For each it writes a line: `ok`, tab, text, or `no`, tab, number, tab, offset.
#![tactic(auto)]

ghost use Rattle.std.specs.Prelude.{false, ◌≡◌, ◌+◌, ◌≤◌, ◌<◌, take, IfOk};
ghost use Rattle.lines.specs.Output.{Open};
ghost use Rattle.undname.specs.Turns.{piece, Between, Reaches, Emptied, Finished, Goes};
ghost use Rattle.answer_line.specs.Line.{longest_answer};

use answer_line::{TABLE, TEXT};
use lines::Work;
use std::io::{Read, Stderr, Stdin, Stdout, Write};
use std::ops::ControlFlow;

const PIECE: usize = 65_536;

// The stream that failed.
#[derive(Clone, Copy)]
enum Failed {
    Input,
    Output,
}

// Two of the standard streams, none of which holds bytes back, and the program's buffers.
#[derive(Drop)]
struct Program {
    source: Stdin,
    sink: Stdout,
    input: [u8; PIECE],
    out: [u8; PIECE],
    table: [u32; TABLE],
    text: [u8; TEXT],
}

impl Program {
    // Reads once, after what is kept, unless lines are left there; a read into no room would look like the end.
    fn read_after(&mut self, w: Work) -> Result<Option<usize>, Failed>
        requires kept_in_bounds { w.kept ≤ piece }
        requires kept_in_bounds_2 { w.full ≡ false → w.kept < piece }
        ensures reaches { Reaches result w piece }
        ensures input_unchanged { take w.kept self.new.input ≡ take w.kept self.old.input }
    {
        if w.full {
            return Ok(Some(0));
        }
        match self.source.read(&mut self.input[w.kept..]) {
            Ok(0) => Ok(None),
            Ok(n) => Ok(Some(n)),
            Err(_) => Err(Failed::Input),
        }
    }

    // Writes all that waits.
    fn hand_out(&mut self, w: Work) -> Result<Work, Failed>
        requires { w.used ≤ piece }
        ensures emptied { Emptied result w }
        ensures input_unchanged { self.new.input ≡ self.old.input }
    {
        let part = &self.out[..w.used];
        match self.sink.write_all(part) {
            Ok(()) => Ok(lines::handed(&self.out, part, w)),
            Err(_) => Err(Failed::Output),
        }
    }

    // The lines that came are answered, and the answers written.
    fn step_on(&mut self, came: usize, w: Work) -> Result<Work, Failed>
        requires came_in_bounds { w.kept + came ≤ piece }
        requires longest_answer_in_bounds { w.used + longest_answer ≤ piece }
        ensures { IfOk result (λ v. Between self.new.input v) }
    {
        let after = lines::step(
            &mut self.input,
            came,
            &mut self.out,
            &mut self.table,
            &mut self.text,
            w,
        );
        self.hand_out(after)
    }

    // At the end of the input: the rest is answered, and the last answer written.
    fn last_turn(&mut self, w: Work) -> Result<Work, Failed>
        requires kept_in_bounds { w.kept ≤ piece }
        requires fact { Open (take w.kept self.old.input) }
        requires longest_answer_in_bounds { w.used + longest_answer ≤ piece }
        ensures { IfOk result Finished }
    {
        let last = lines::finish(
            &self.input,
            &mut self.out,
            &mut self.table,
            &mut self.text,
            w,
        );
        self.hand_out(last)
    }

    // One read, and all that can be answered then: the work to go on with, or that at the end.
    fn turn(&mut self, w: Work) -> Result<ControlFlow<Work, Work>, Failed>
        requires { Between self.old.input w }
        ensures { Goes result self.new.input }
    {
        match self.read_after(w)? {
            Some(came) => Ok(ControlFlow::Continue(self.step_on(came, w)?)),
            None => Ok(ControlFlow::Break(self.last_turn(w)?)),
        }
    }

    // Nothing says that the input ends, so the turns are counted, up to a number that no run reaches.
    fn run(&mut self) -> Result<(), Failed> {
        let mut w = Work {
            kept: 0,
            used: 0,
            full: false,
        };
        'turns: for _ in 0..u64::MAX {
            match self.turn(w)? {
                ControlFlow::Continue(next) => w = next,
                ControlFlow::Break(_) => return Ok(()),
            }
        }
        Ok(())
    }
}

// Nothing is left to do where even this can't be written.
fn complain(mut errors: Stderr, failed: Failed) {
    let message = match failed {
        Failed::Input => b"undname: standard input can't be read\n".as_slice(),
        Failed::Output => b"undname: standard output can't be written\n".as_slice(),
    };
    let _ = errors.write_all(message);
}

fn main(rt: HostRuntime) {
    let mut program = Program {
        source: rt.stdin(),
        sink: rt.stdout(),
        input: [0; PIECE],
        out: [0; PIECE],
        table: [0; TABLE],
        text: [0; TEXT],
    };
    if let Err(failed) = program.run() {
        complain(rt.stderr(), failed);
    }
}
