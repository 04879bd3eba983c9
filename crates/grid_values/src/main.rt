// Worked values of `grid`: samples at corners, on edges, outside, at NaN, infinities and zeros, on grids of 2, 4 and 8 nodes per side. A row of the output has
// the samples of places whose y is the same. The file `stdout` was written by native/src/bin/grid_values.rs, which has the Rust's `trilinear` and `sample`.
#![tactic(auto)]

ghost use Rattle.std.specs.Prelude.{◌≡◌, ◌*◌, ◌<◌, ◌≤◌, length};
ghost use Rattle.grid.specs.Grid.{Sides, all_nodes};

use grid::Grid;
use std::io;

// ---- the values of the nodes, by a rule of whole numbers

// Plain: exact in f32.
fn plain(m: u32) -> f32 {
    arith::narrow((m as f64 - 48.0) / 8.0)
}

// -0 everywhere: a sum from +0 would not stay -0.
fn minus_zero(_m: u32) -> f32 {
    -0.0
}

// Plain, and for some m a zero, an end of the format, a subnormal, an infinity or a NaN.
fn wild(m: u32) -> f32 {
    match m {
        0..=9 => -0.0,
        10..=19 => arith::float32(0x7F7F_FFFF),
        20..=29 => arith::float32(0xFF7F_FFFF),
        30..=39 => arith::float32(1),
        50 => 1.0 / 0.0,
        51 => -1.0 / 0.0,
        52 => 0.0 / 0.0,
        _ => plain(m),
    }
}

// Values for as many nodes as there is room for: node q has that of m = (37·q + 11) mod 101.
fn fill<F: Fn(u32) -> f32>(values: &mut [f32], value: F)
    requires callable { F.IsAlwaysCallable value }
    requires room { length values.old ≤ 512 }
    ensures { length values.new ≡ length values.old }
{
    for (q, x) in values.iter_mut().enumerate() {
        *x = value(((37 * q + 11) % 101) as u32);
    }
}

// ---- the places

// Coordinate t = 0..13 along an axis of a cube 2.5 wide from o on: its ends, inside, outside, and what is no place at all.
fn coordinate(t: usize, o: f64) -> f64 {
    match t {
        0..=7 => o + offset(t),
        8 => -0.0,
        9 => arith::float64(1),
        10 => arith::float64(0x7FEF_FFFF_FFFF_FFFF),
        11 => 1.0 / 0.0,
        12 => -1.0 / 0.0,
        _ => 0.0 / 0.0,
    }
}

// What is added to o.
fn offset(t: usize) -> f64 {
    match t {
        0 => 0.0,
        1 => 2.5,
        2 => 1.25,
        3 => 2.5 / 7.0 * 3.0,
        4 => 2.5 / 3.0,
        5 => 2.4375,
        6 => -1.0,
        _ => 3.5,
    }
}

// ---- samples

// The sample at the place with the coordinates a, b and 3a+b of their axes.
fn sample(rt: &impl Print, g: Grid, values: &[f32], a: usize, b: usize) -> io::Result<()>
    requires sides { Sides g.nodes }
    requires values_len { length values.now ≡ all_nodes g }
    requires a_bound { (a < 14) × (b < 14) }
{
    let o = g.origin;
    let p = [
        coordinate(a, o[0]),
        coordinate(b, o[1]),
        coordinate((3 * a + b) % 14, o[2]),
    ];
    print!(rt; " {:016x}", arith::pattern64(g.sample(values, p)))
}

// The samples of one y.
fn row(rt: &impl Print, g: Grid, values: &[f32], b: usize) -> io::Result<()>
    requires sides { Sides g.nodes }
    requires values_len { length values.now ≡ all_nodes g }
    requires b_bound { b < 14 }
{
    for a in 0..14 {
        sample(rt, g, values, a, b)?;
    }
    println!(rt;)
}

// The samples of all.
fn rows(rt: &impl Print, g: Grid, values: &[f32]) -> io::Result<()>
    requires sides { Sides g.nodes }
    requires values_len { length values.now ≡ all_nodes g }
{
    for b in 0..14 {
        row(rt, g, values, b)?;
    }
    Ok(())
}

// ---- a grid and its values

// The grid of a depth. Its step is no exact number but for depth 1.
fn cube(depth: u32) -> Grid
    requires { (1 ≤ depth) × (depth ≤ 3) }
    ensures { Sides result.nodes × (all_nodes result ≤ 512) }
{
    Grid::new([-1.0, 0.5, 0.1], 2.5, depth)
}

// Samples of one grid with one kind of values.
fn run<F: Fn(u32) -> f32>(rt: &impl Print, name: &str, depth: u32, value: F) -> io::Result<()>
    requires callable { F.IsAlwaysCallable value }
    requires shallow { (1 ≤ depth) × (depth ≤ 3) }
{
    let g = cube(depth);
    println!(rt; "{} nodes, {name}", g.nodes)?;
    let n = g.len();
    let mut values = [0.0f32; 512];
    fill(&mut values, value);
    rows(rt, g, &values[..n])
}

fn main(rt: HostRuntime) -> io::Result<()> {
    for depth in 1..4 {
        run(&rt, "plain", depth, plain)?;
        run(&rt, "minus zero", depth, minus_zero)?;
        run(&rt, "wild", depth, wild)?;
    }
    Ok(())
}
