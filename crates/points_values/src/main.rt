// Worked values of `points` and `search`: each case makes its points by the rule of rule.rt, and the functions' answers are printed as counts and bit
// patterns. The file `stdout` was written by native/src/bin/points_values.rs: the same rule, and document 01's Points, box and Spacing by brute search,
// in Rust.
#![tactic(auto)]

mod rule;

ghost use Rattle.std.specs.Prelude.{◌≤◌, length};
ghost use Rattle.points.specs.Points.{given};

use points::{Bounds, Point, Unusable};
use rule::{Case, Stand};
use std::io;

// ---- counts

// The answers in the order of checking, after that of a usable point.
const ANSWERS: [Result<(), Unusable>; 4] = [
    Ok(()),
    Err(Unusable::PositionNotFinite),
    Err(Unusable::LengthNotFinite),
    Err(Unusable::NormalTooShort),
];

// How many points have this answer.
fn count_of(points: &[f32], answer: Result<(), Unusable>) -> usize {
    Point::all(points)
        .filter(|p| p.usability() == answer)
        .count()
}

// The count that the hot loops use, then the four counts by answer: the first of them is the same number, asked another way.
fn print_counts(rt: &impl Print, points: &[f32]) -> io::Result<()> {
    print!(rt; "  usable {}, by reason", points::usable_count(points))?;
    for answer in ANSWERS {
        print!(rt; " {}", count_of(points, answer))?;
    }
    println!(rt;)
}

// ---- floats

// A line with one number.
fn single(rt: &impl Print, name: &str, x: f64) -> io::Result<()> {
    println!(rt; "  {name} {:016x}", arith::pattern64(x))
}

// A line with three.
fn triple(rt: &impl Print, name: &str, p: [f64; 3]) -> io::Result<()> {
    let [x, y, z] = p.map(|c| arith::pattern64(c));
    println!(rt; "  {name} {x:016x} {y:016x} {z:016x}")
}

// ---- a case

// All that the functions say of the points.
fn report(rt: &impl Print, points: &[f32], list: &mut [f32]) -> io::Result<()>
    requires { given points.now ≤ length list.old }
{
    print_counts(rt, points)?;
    let b = Bounds::of(points);
    let lo = b.lo;
    let hi = b.hi;
    let extent = b.extent();
    triple(rt, "low", lo)?;
    triple(rt, "high", hi)?;
    single(rt, "extent", extent)?;
    single(rt, "side", b.side())?;
    triple(rt, "origin", b.origin())?;
    single(rt, "spacing", search::spacing(points, list, extent))
}

// Makes a case's points and reports on the first `all` of them. 2304 points have room.
fn run(rt: &impl Print, name: &str, stand: Stand, all: usize, spoilt: usize) -> io::Result<()>
    requires { all ≤ 2304 }
{
    println!(rt; "{name}")?;
    let case = Case { stand, spoilt };
    let mut points = [0.0f32; 13824];
    let mut list = [0.0f32; 2304];
    rule::fill(&mut points, case);
    report(rt, &points[..all * 6], &mut list)
}

fn main(rt: HostRuntime) -> io::Result<()> {
    run(&rt, "none", Stand::Spread, 0, 0)?;
    run(&rt, "9 of 12", Stand::Spread, 12, 3)?;
    run(&rt, "10 of 13", Stand::Spread, 13, 3)?;
    run(&rt, "999 of 1199", Stand::Spread, 1199, 200)?;
    run(&rt, "1000 of 1200", Stand::Spread, 1200, 200)?;
    run(&rt, "1999 of 2299", Stand::Spread, 2299, 300)?;
    run(&rt, "2000 of 2300", Stand::Spread, 2300, 300)?;
    run(&rt, "doubles", Stand::Doubled, 40, 3)?;
    run(&rt, "short normals", Stand::Short, 40, 10)?;
    run(&rt, "1.8e19 apart", Stand::Wide, 16, 0)?;
    run(&rt, "2e19 apart", Stand::Apart, 16, 0)?;
    run(&rt, "minus zero and subnormal", Stand::Minute, 40, 10)?;
    run(&rt, "largest", Stand::Largest, 12, 2)?;
    run(&rt, "all equal", Stand::Equal, 20, 5)
}
