// The input in lines.
ghost use Rattle.std.specs.Prelude.{◌≡◌, ◌++◌, ◌+◌, ◌≤◌, ◌==◌, length, take, position};
ghost use Rattle.lines.specs.Output.{Open, output};
ghost use Rattle.lines.specs.Steps.{Goes};
ghost use Rattle.answer_line.specs.Line.{line_cells, line_text, longest_answer};

use answer_line::{LONGEST_ANSWER, answer_line};

// Up to where the lines are answered, and how many bytes of the output wait.
#[derive(Clone, Copy)]
pub struct Place {
    pub at: usize,
    pub used: usize,
}

// Where the first line ends, if a newline ends it.
fn line_end(rest: &[u8]) -> Option<usize>
    ensures { result ≡ position (λ c. c == 10) rest.now }
{
    rest.iter().position(|c| *c == b'\n')
}

// Answers the lines that end in the input, as long as there is room for one more.
// The table and the text are slices that callers of `step` lend, so their lengths are asked for.
pub fn answer_lines(
    input: &[u8],
    out: &mut [u8],
    used: usize,
    table: &mut [u32],
    text: &mut [u8],
) -> Place
    requires longest_answer_in_bounds { used + longest_answer ≤ length out.old }
    requires table_len { length table.old ≡ line_cells }
    requires text_len { length text.old ≡ line_text }
    ensures { Goes input.now out.old used out.new result.at result.used }
{
    let mut at = 0;
    let mut put = used;
    while LONGEST_ANSWER <= out.len() - put {
        let Some(n) = line_end(&input[at..]) else {
            break;
        };
        let end = at + n;
        let line = &input[at..end];
        put = answer_line(line, out, put, table, text);
        at = end + 1;
    }
    Place { at, used: put }
}

// Answers a rest that no newline ends. Callers of `finish` lend the slices table and text.
pub fn answer_rest(
    rest: &[u8],
    out: &mut [u8],
    used: usize,
    table: &mut [u32],
    text: &mut [u8],
) -> usize
    requires fact { Open rest.now }
    requires longest_answer_in_bounds { used + longest_answer ≤ length out.old }
    requires table_len { length table.old ≡ line_cells }
    requires text_len { length text.old ≡ line_text }
    ensures { (result ≤ length out.new) × (take result out.new ≡ take used out.old ++ output rest.now) }
{
    if rest.is_empty() {
        return used;
    }
    answer_line(rest, out, used, table, text)
}
