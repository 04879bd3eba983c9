// Replays a list of worked values through the functions of `arith`, and prints what differs and a count. Each line of `stdin` has an operation,
// its argument and its answer, as bit patterns. The list was written by a Rust program: square root, narrowing, floor, ceiling, sign and clamp are
// Rust's own, the exponential is 01's rule. Where Rust hands a NaN's payload through, the answer was rewritten as 01 stores it.
#![tactic(auto)]

use replay::Words;
use std::io;

// What the function of a name answers to a pattern, as a pattern.
fn answer(name: &[u8], pattern: u64) -> Option<u64> {
    let x = arith::float64(pattern);
    let answer = match name {
        b"sqrt32" => {
            arith::pattern32(arith::root(arith::float32((pattern % 0x1_0000_0000) as u32))) as u64
        }
        b"sqrt64" => arith::pattern64(arith::root(x)),
        b"narrow" => arith::pattern32(arith::narrow(x)) as u64,
        b"expneg" => arith::pattern32(arith::exp_neg(x)) as u64,
        b"floor" => arith::pattern64(arith::floor(x)),
        b"ceil" => arith::pattern64(arith::ceiling(x)),
        b"sign" => arith::pattern64(arith::sign(x)),
        b"clamp7" => arith::pattern64(arith::clamp(x, 0.0, 7.0)),
        _ => return None,
    };
    Some(answer)
}

fn tell(rt: &impl Print, name: &[u8], pattern: u64, want: u64, got: u64) -> io::Result<()> {
    rt.write_all(name)?;
    println!(rt; " {pattern:016x} should be {want:016x}, is {got:016x}")
}

// Whether the answer differs. An unknown name answers a pattern that the list does not hold.
fn differs(rt: &impl Print, name: &[u8], pattern: u64, want: u64) -> io::Result<bool> {
    let got = answer(name, pattern).unwrap_or(u64::MAX);
    if got != want {
        tell(rt, name, pattern, want, got)?;
    }
    Ok(got != want)
}

fn replay_all(rt: &impl Print, text: &[u8]) -> io::Result<()> {
    let mut words = Words::new(text);
    let mut lines = 0u64;
    let mut differ = 0u64;
    while let Some(name) = words.next() {
        let pattern = words.hex();
        let want = words.hex();
        lines += 1;
        differ += u64::from(differs(rt, name, pattern, want)?);
    }
    println!(rt; "{lines} values, {differ} differ")
}

fn main(rt: HostRuntime) -> io::Result<()> {
    let mut text = [0u8; 131072];
    let n = input::read_full(&rt, &mut text)?;
    replay_all(&rt, &text[..n])
}
