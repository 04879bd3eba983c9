// Standard input, read into a lent buffer: what the programs that read a sheet or a list begin with.
#![tactic(auto)]

ghost use Rattle.std.specs.Prelude.{◌≡◌, ◌≤◌, length, IfOk, OnErr};

use std::io;
use std::io::Read;

// Reads until the buffer is full or the input ends, and says how many bytes came. Which bytes come, no contract can say. An error leaves what came before it.
pub fn read_full(rt: &impl Input, buf: &mut [u8]) -> io::Result<usize>
    ensures count { IfOk result (λ n. n ≤ length buf.new) }
    ensures failed { OnErr result (length buf.new ≡ length buf.old) }
{
    let mut reader = rt.reader();
    let mut done = 0;
    while done < buf.len() {
        let n = reader.read(&mut buf[done..])?;
        if n == 0 {
            break;
        }
        done += n;
    }
    Ok(done)
}
