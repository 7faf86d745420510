// Reading what a program is handed on standard input.
ghost use Rattle.std.specs.Prelude.{◌≤◌, vec_len, IfOk};

use std::io;
use std::io::Read;

// One byte more than the longest text that is read, so that a longer one shows.
pub const MOST_BYTES: usize = 4097;

// The text on standard input, or as much of it as shows that it is too long.
pub fn read_text(rt: &HostRuntime) -> io::Result<Vec<u8>>
    ensures { IfOk result (λ text. vec_len text ≤ 4097) }
{
    let mut text = Vec::new(rt.alloc());
    let mut input = rt.stdin().take(MOST_BYTES as u64);
    input.read_to_end(&mut text)?;
    text.truncate(MOST_BYTES);
    Ok(text)
}
