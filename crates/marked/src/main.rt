// The marked cases of document 01 run through the functions: each line is a case and what the function answers, as a bit pattern or a count.
// specs/Marked.antt proves the same of the definitions.
#![tactic(auto)]

ghost use Rattle.std.specs.Prelude.{◌≡◌};

use blur::Kernel;
use grid::{Edge, Grid};
use std::io;

// A grid of 8 nodes per side, on which a coordinate is its own u.
fn eight() -> Grid
    ensures { result.nodes ≡ 8 }
{
    Grid {
        nodes: 8,
        origin: [0.0, 0.0, 0.0],
        step: 1.0,
    }
}

fn p10(rt: &impl Print) -> io::Result<()> {
    let node = eight().node([1, 2, 3]);
    let edge = Edge::of(node, 2);
    println!(rt; "P10 {}", node.place())?;
    println!(rt; "P10 {}", edge.place())
}

fn p11(rt: &impl Print) -> io::Result<()> {
    let cell = eight().cell([7.0, 7.0, 7.0]);
    let base = cell.base;
    let frac = cell.frac;
    println!(rt; "P11 {}", base[0])?;
    println!(rt; "P11 {:016x}", arith::pattern64(frac[0]))
}

// P3 to P7.
fn narrowed(rt: &impl Print) -> io::Result<()> {
    let values = [
        1.000000059604644775390625,
        1.000000178813934326171875,
        340282366920938463463374607431768211456.0,
        7.006492321624085e-46,
        2.1019476964872256e-45,
    ];
    for (i, x) in values.iter().enumerate() {
        println!(rt; "P{} {:08x}", i + 3, arith::pattern32(arith::narrow(*x)))?;
    }
    Ok(())
}

fn main(rt: HostRuntime) -> io::Result<()> {
    println!(rt; "P1 {:08x}", arith::pattern32(arith::root(4.0)))?;
    println!(rt; "P1 {:016x}", arith::pattern64(arith::root(4.0)))?;
    println!(rt; "P2 {:016x}", arith::pattern64(arith::root(2.0)))?;
    narrowed(&rt)?;
    println!(rt; "P8 {}", Kernel::radius_of(0.5))?;
    println!(rt; "P9 {}", Kernel::radius_of(6.0))?;
    p10(&rt)?;
    p11(&rt)
}
