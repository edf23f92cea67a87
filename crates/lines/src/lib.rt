// The program's work between two reads: the lines that came, answered, and the rest kept.
#![tactic(auto)]

ghost use Rattle.std.specs.Prelude.{◌≡◌, ◌++◌, ◌+◌, ◌≤◌, length, take, drop};
ghost use Rattle.lines.specs.Output.{Open, output};
ghost use Rattle.lines.specs.Steps.{Steps, Ready, Share};
ghost use Rattle.lines.specs.Run.{AllAnswered};
ghost use Rattle.answer_line.specs.Line.{line_cells, line_text, longest_answer};

mod lines;

use answer_line::LONGEST_ANSWER;
use scan::limits::LONGEST_SYMBOL;

// So many bytes of a line are kept from one read to the next: enough to refuse it for its length.
const KEPT: usize = LONGEST_SYMBOL + 1;

// How many bytes of the input's beginning are kept, how many of the output wait, and whether a step stopped for want of room.
// Beside the buffers, which are the caller's fixed memory; `full` beside `kept`, which all but the next read take alike.
#[derive(Clone, Copy)]
pub struct Work {
    pub kept: usize,
    pub used: usize,
    pub full: bool,
}

// How many bytes of a rest are kept: all where lines may be left in it.
fn share(rest: usize, full: bool) -> usize
    ensures { Share rest full result }
{
    if full { rest } else { rest.min(KEPT) }
}

// Answers the lines that end in the bytes kept and those that came after them, and keeps the rest.
// Callers lend table and text, so these are slices of a length that is asked for; what a line leaves there is free.
pub fn step(
    input: &mut [u8],
    came: usize,
    out: &mut [u8],
    table: &mut [u32],
    text: &mut [u8],
    w: Work,
) -> Work
    requires came_in_bounds { w.kept + came ≤ length input.old }
    requires longest_answer_in_bounds { w.used + longest_answer ≤ length out.old }
    requires table_len { length table.old ≡ line_cells }
    requires text_len { length text.old ≡ line_text }
    ensures steps { Steps (take w.kept input.old) (take w.used out.old) (take came (drop w.kept input.old)) (take result.kept input.new) (take result.used out.new) }
    ensures ready { Ready input.new out.new result }
{
    let n = w.kept + came;
    let place = lines::answer_lines(&input[..n], out, w.used, table, text);
    let at = place.at;
    let full = out.len() - place.used < LONGEST_ANSWER;
    let count = share(n - at, full);
    input.copy_within(at..at + count, 0);
    Work {
        kept: count,
        used: place.used,
        full,
    }
}

// At the end of the input: answers the rest that no newline ends. Callers lend the slices table and text, as to `step`.
pub fn finish(input: &[u8], out: &mut [u8], table: &mut [u32], text: &mut [u8], w: Work) -> Work
    requires kept_in_bounds { w.kept ≤ length input.now }
    requires fact { Open (take w.kept input.now) }
    requires longest_answer_in_bounds { w.used + longest_answer ≤ length out.old }
    requires table_len { length table.old ≡ line_cells }
    requires text_len { length text.old ≡ line_text }
    ensures kept_value { (result.kept ≡ 0) × (result.used ≤ length out.new) }
    ensures out_after { take result.used out.new ≡ take w.used out.old ++ output (take w.kept input.now) }
    ensures all_answered { AllAnswered (take w.kept input.now) (take w.used out.old) (take result.used out.new) }
{
    let end = lines::answer_rest(&input[..w.kept], out, w.used, table, text);
    Work {
        kept: 0,
        used: end,
        full: false,
    }
}

// Accounts for a part that was written: it is all that waits.
pub fn handed(out: &[u8], part: &[u8], w: Work) -> Work
    requires { part.now ≡ take w.used out.now }
    ensures { (result.kept ≡ w.kept) × (result.used ≡ 0) × (result.full ≡ w.full) }
{
    Work { used: 0, ..w }
}
