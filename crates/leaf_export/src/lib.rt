// The leaves for callers in C or Rust.
#![tactic(auto)]

ghost use Rattle.std.specs.Prelude.{◌≡◌, drop};
ghost use Rattle.leaf_call.specs.Replies.{leaf_reply};
ghost use Rattle.leaf_export.specs.Written.{written};

use leaf_call::call_leaf;

// The leaf of this number, read at a place of the symbol: number, bytes taken, value and start go into the first four
// places of `out`.
#[unsafe(no_mangle)]
pub extern "C" fn farthingmoss_leaf(leaf: u32, s: &[u8], at: usize, out: &mut [u64])
    ensures { out.new ≡ written (leaf_reply leaf (drop at s.now)) out.old }
{
    if out.len() < 4 {
        return;
    }
    let reply = call_leaf(leaf, s, at);
    out[0] = reply.number as u64;
    out[1] = reply.taken as u64;
    out[2] = reply.value as u64;
    out[3] = reply.start as u64;
}
