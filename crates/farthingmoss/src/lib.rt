// The public calls: any bytes, any flags, any buffers.
#![tactic(auto)]

ghost use Rattle.std.specs.Prelude.{◌≡◌, Err, get_or, length};
ghost use Rattle.farthingmoss.specs.Call.{report_of, fitted, refusal, closed, answer_of, text_left, demangled, table_after, text_after, rooted, root_answer, root_text, written_alone, text_alone, name_ok, name_answer, name_of};

pub mod exports;

use gates::{Closed, call_gate, symbol_gate};
use grammar::Refusal;
use node::{cells, kinds};
use reader::{Outcome, Unread};

#[derive(Clone, Copy, Debug, PartialEq, Eq)]
pub struct Counts {
    pub offset: usize,
    pub depth: usize,
    pub nodes: usize,
    pub text: usize,
}

// The counts of a call that has none.
const NONE: Counts = Counts {
    offset: 0,
    depth: 0,
    nodes: 0,
    text: 0,
};

// Why a call is refused. Of a text that does not fit there are counts too.
#[derive(Clone, Copy, Debug, PartialEq, Eq)]
pub enum Refused {
    NoSymbol,
    NotAscii(usize),
    NoDerivation(usize),
    TooDeep(usize),
    NoNode(usize),
    NoRoom(Counts),
    BadCall,
    BadTable,
}

impl From<Closed> for Refused {
    ghost from_gives = { λ g e. e ≡ closed g };

    fn from(g: Closed) -> Refused {
        match g {
            Closed::Call => Refused::BadCall,
            Closed::Symbol => Refused::NoSymbol,
            Closed::High(at) => Refused::NotAscii(at),
        }
    }
}

impl Refused {
    // Its number in a report.
    pub fn number(self) -> u8
        ensures { result ≡ get_or (report_of (Err self)) 0 0 }
    {
        match self {
            Refused::NoSymbol => 1,
            Refused::NotAscii(_) => 2,
            Refused::NoDerivation(_) => 3,
            Refused::TooDeep(_) => 4,
            Refused::NoNode(_) => 5,
            Refused::NoRoom(_) => 6,
            Refused::BadCall => 7,
            Refused::BadTable => 8,
        }
    }

    // Its values in a report.
    pub fn counts(self) -> Counts
        ensures offset { result.offset ≡ get_or (report_of (Err self)) 1 0 }
        ensures depth { result.depth ≡ get_or (report_of (Err self)) 2 0 }
        ensures nodes { result.nodes ≡ get_or (report_of (Err self)) 3 0 }
        ensures text { result.text ≡ get_or (report_of (Err self)) 4 0 }
    {
        match self {
            Refused::NotAscii(at)
            | Refused::NoDerivation(at)
            | Refused::TooDeep(at)
            | Refused::NoNode(at) => Counts { offset: at, ..NONE },
            Refused::NoRoom(c) => c,
            Refused::NoSymbol | Refused::BadCall | Refused::BadTable => NONE,
        }
    }
}

// Counts with the length of a text that is not cut; `full` has that of the room.
fn fit(full: Counts, w: Option<usize>) -> Result<Counts, Refused>
    ensures { result ≡ fitted full.offset full.depth full.nodes full.text w }
{
    match w {
        Some(text) => Ok(Counts { text, ..full }),
        None => Err(Refused::NoRoom(full)),
    }
}

fn refusal(why: Refusal, at: usize) -> Refused
    ensures { result ≡ refusal why at }
{
    match why {
        Refusal::Syntax => Refused::NoDerivation(at),
        Refusal::Deep => Refused::TooDeep(at),
        Refusal::Full => Refused::NoNode(at),
    }
}

// The text of what a reading answered, and the call's answer.
fn finish(
    symbol: &[u8],
    table: &[u32],
    text: &mut [u8],
    flags: u32,
    r: Outcome,
) -> Result<Counts, Refused>
    ensures value { result ≡ answer_of flags symbol.now table.now (length text.old) r.answer r.state }
    ensures text_after { text.new ≡ text_left flags symbol.now table.now text.old r.answer }
{
    match r.answer {
        Ok(n) => {
            let full = Counts {
                offset: r.state.at as usize,
                depth: r.state.deep as usize,
                nodes: r.state.used as usize,
                text: text.len(),
            };
            let w = writer::write(table, symbol, text, n as usize + 1, flags);
            fit(full, w)
        }
        Err(Unread::Outside) => Err(Refused::NoSymbol),
        Err(Unread::Refused(why)) => Err(refusal(why, r.state.at as usize)),
    }
}

// Reads the symbol into the table and writes its text.
#[tactic(auto, unfolding(crate::specs::Call::demangled, crate::specs::Call::table_after, crate::specs::Call::text_after))]
pub fn demangle(
    symbol: &[u8],
    flags: u32,
    depth: u32,
    table: &mut [u32],
    text: &mut [u8],
) -> Result<Counts, Refused>
    ensures value { result ≡ demangled flags depth symbol.now table.old (length text.old) }
    ensures table_after { table.new ≡ table_after flags depth symbol.now table.old }
    ensures text_after { text.new ≡ text_after flags depth symbol.now table.old text.old }
{
    call_gate(flags, depth, symbol)?;
    let r = reader::read(symbol, table, depth as u16);
    finish(symbol, table, text, flags, r)
}

// Whether the table is well formed and its last node a ParseResult.
#[tactic(auto, unfolding(crate::specs::Call::rooted))]
fn is_rooted(table: &[u32], len: usize) -> bool
    ensures { result ≡ rooted len table.now }
{
    let count = node::room(table);
    0 < count
        && form::is_well_formed(table, len)
        && node::kind(table, count - 1) == kinds::PARSE_RESULT
}

// The text of a table's root.
#[tactic(auto, unfolding(crate::specs::Call::root_answer, crate::specs::Call::root_text))]
fn write_root(
    symbol: &[u8],
    flags: u32,
    depth: u32,
    table: &[u32],
    text: &mut [u8],
) -> Result<Counts, Refused>
    ensures value { result ≡ root_answer flags depth symbol.now table.now (length text.old) }
    ensures text_after { text.new ≡ root_text flags depth symbol.now table.now text.old }
{
    if !is_rooted(table, symbol.len()) {
        return Err(Refused::BadTable);
    }
    let count = node::room(table);
    let height = node::cell(table, count - 1, cells::HEIGHT);
    if (depth as usize) < height {
        return Err(Refused::TooDeep(0));
    }
    let full = Counts {
        offset: 0,
        depth: height,
        nodes: count,
        text: text.len(),
    };
    let w = writer::write(table, symbol, text, count, flags);
    fit(full, w)
}

// Writes the text of a table that a reading left.
#[tactic(auto, unfolding(crate::specs::Call::written_alone, crate::specs::Call::text_alone))]
pub fn write_table(
    symbol: &[u8],
    flags: u32,
    depth: u32,
    table: &[u32],
    text: &mut [u8],
) -> Result<Counts, Refused>
    ensures value { result ≡ written_alone flags depth symbol.now table.now (length text.old) }
    ensures table_value { table.exit.now ≡ table.entry.now }
    ensures text_after { text.new ≡ text_alone flags depth symbol.now table.now text.old }
{
    call_gate(flags, depth, symbol)?;
    write_root(symbol, flags, depth, table, text)
}

// Whether node n of a well-formed table is a plain name.
#[tactic(auto, unfolding(crate::specs::Call::name_ok))]
fn is_name(table: &[u32], len: usize, n: u64) -> bool
    ensures { result ≡ name_ok len table.now n }
{
    let i = n as usize;
    form::is_well_formed(table, len)
        && i < node::room(table)
        && node::kind(table, i) == kinds::NON_TEMPLATE
}

// Whether node n is a plain name: the number and the offset of the answer.
#[tactic(auto, unfolding(crate::specs::Call::name_answer))]
pub fn name_question(symbol: &[u8], table: &[u32], n: u64) -> Result<Counts, Refused>
    ensures value { result ≡ name_answer symbol.now table.now n }
    ensures table_value { table.exit.now ≡ table.entry.now }
{
    symbol_gate(symbol)?;
    if !is_name(table, symbol.len(), n) {
        return Err(Refused::BadTable);
    }
    Ok(NONE)
}

// That part of the symbol which is node n's name; its empty beginning where the question is refused.
pub fn name_part<'a>(symbol: &'a [u8], table: &[u32], n: u64) -> &'a [u8]
    ensures result_value { result.now ≡ name_of symbol.now table.now n }
    ensures table_value { table.exit.now ≡ table.entry.now }
{
    if name_question(symbol, table, n).is_err() {
        return &symbol[..0];
    }
    let i = n as usize;
    meaning::part_of(
        symbol,
        node::cell(table, i, cells::P),
        node::cell(table, i, cells::Q),
    )
}
