// The reader for callers in C or Rust.
#![tactic(auto)]

ghost use Rattle.std.specs.Prelude.{◌≡◌};
ghost use Rattle.reader.specs.Whole.{answered, table_left};
ghost use Rattle.reader_export.specs.Reported.{reported};

// Reads a symbol within a depth: number, bytes consumed, depth and nodes go into the first four places of `out`.
#[unsafe(no_mangle)]
pub extern "C" fn farthingmoss_reading(
    symbol: &[u8],
    depth: u16,
    table: &mut [u32],
    out: &mut [u64],
)
    ensures table_after { table.new ≡ table_left symbol.now depth table.old }
    ensures out_after { out.new ≡ reported (answered symbol.now depth table.old) out.old }
{
    let r = reader::read(symbol, table, depth);
    if out.len() < 4 {
        return;
    }
    out[0] = match r.answer {
        Ok(_) => 0,
        Err(why) => why.number() as u64,
    };
    out[1] = r.state.at as u64;
    out[2] = r.state.deep as u64;
    out[3] = r.state.used as u64;
}
