// Reports how far 01's exponential of -x is from Rust's `exp`, in steps of f32, at x = k/320 for k = 0..4000, that is from 0 to 12.5.
// `stdin` has Rust's values, one pattern a line, as native/src/bin/exp_distance.rs writes them; that program also runs 13 million values.
#![tactic(auto)]

use replay::Words;
use std::io;

const VALUES: u32 = 4001;

// How many values lie from ours to Rust's: the patterns of numbers that are not below zero stand in their order.
fn distance(k: u32, rust: u32) -> u32 {
    arith::pattern32(arith::exp_neg(k as f64 / 320.0)).abs_diff(rust)
}

fn report(rt: &impl Print, values: u32, differ: u32, worst: u32) -> io::Result<()> {
    println!(rt; "{values} values, {differ} differ, the worst by {worst} f32 steps")
}

fn compare(rt: &impl Print, text: &[u8]) -> io::Result<()> {
    let mut words = Words::new(text);
    let mut differ = 0u32;
    let mut worst = 0u32;
    for k in 0..VALUES {
        let d = distance(k, words.hex32());
        differ += u32::from(d != 0);
        worst = worst.max(d);
    }
    report(rt, VALUES, differ, worst)
}

fn main(rt: HostRuntime) -> io::Result<()> {
    let mut text = [0u8; 65536];
    let n = input::read_full(&rt, &mut text)?;
    compare(&rt, &text[..n])
}
