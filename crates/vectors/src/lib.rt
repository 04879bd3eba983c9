// Document 01, "Solver", its dot product and the updates of a step, beside `dot` of the Rust's poisson.rs and the updates inside its
// `conjugate_gradient`: whole slices, one element a node. Each is one plain loop, which becomes vector code.
#![tactic(auto)]

ghost use Rattle.std.specs.Prelude.{◌≡◌, length};
ghost use Rattle.lists.specs.Lists.{tabulate};
ghost use Rattle.grid.specs.Grid.{all_nodes};
ghost use Rattle.vectors.specs.Vectors.{dotted, plus_at, less_at};
ghost use Rattle.vectors.specs.Words.{NodeSlices, Advanced};

use grid::Grid;

// The dot product: f64, index order, from +0.0. The Rust's `dot` sums in any order.
pub fn dot(g: Grid, a: &[f32], b: &[f32]) -> f64
    requires { (length a.now ≡ all_nodes g) × (length b.now ≡ all_nodes g) }
    ensures { result ≡ dotted g a.now b.now }
{
    let mut s = 0.0f64;
    for i in 0..a.len() {
        s = s + arith::widen(a[i]) * arith::widen(b[i]);
    }
    s
}

// x becomes x + alpha·p and r becomes r - alpha·ap; it answers dot(r, r) of the new r. One pass for all three: that sum must run in order, and the rest
// is done while it waits.
pub fn advance(g: Grid, x: &mut [f32], r: &mut [f32], p: &[f32], ap: &[f32], alpha: f32) -> f64
    requires { NodeSlices g x.old r.old p.now ap.now }
    ensures { Advanced g alpha x.old r.old p.now ap.now x.new r.new result }
{
    let mut s = 0.0f64;
    for i in 0..x.len() {
        x[i] = x[i] + alpha * p[i];
        let v = r[i] - alpha * ap[i];
        r[i] = v;
        let w = arith::widen(v);
        s = s + w * w;
    }
    s
}

// p becomes r + beta·p.
pub fn xpay(p: &mut [f32], r: &[f32], beta: f32)
    requires { length r.now ≡ length p.old }
    ensures { p.new ≡ tabulate (length p.old) (plus_at beta r.now p.old) }
{
    for i in 0..p.len() {
        p[i] = r[i] + beta * p[i];
    }
}

// r becomes b - ax.
pub fn less(r: &mut [f32], b: &[f32], ax: &[f32])
    requires { (length b.now ≡ length r.old) × (length ax.now ≡ length r.old) }
    ensures { r.new ≡ tabulate (length r.old) (less_at b.now ax.now) }
{
    for i in 0..r.len() {
        r[i] = b[i] - ax[i];
    }
}

// p becomes r. The library's copy_from_slice would call memmove, and of the C library the exported functions call memset and memcpy alone.
pub fn copy(p: &mut [f32], r: &[f32])
    requires { length r.now ≡ length p.old }
    ensures { p.new ≡ r.now }
{
    for i in 0..p.len() {
        p[i] = r[i];
    }
}
