// Document 01, "Solver", its A x, beside `apply` of the Rust's poisson.rs: 6x minus six neighbours, and 0 on the boundary. The Rust tests every node;
// here whole rows are on the boundary or not, and of a row that is not only the two ends are, so that the loop along it has no test.
#![tactic(auto)]

ghost use Rattle.std.specs.Prelude.{◌≡◌, ◌+◌, ◌-◌, ◌*◌, ◌≤◌, ◌<◌, length};
ghost use Rattle.lists.specs.Lists.{tabulate};
ghost use Rattle.grid.specs.Grid.{Sides, all_nodes};
ghost use Rattle.laplacian.specs.Laplacian.{stencil_at, apply_at, applied};
ghost use Rattle.laplacian.specs.Words.{inner_row_at};

use grid::{Grid, Node};

// 6x minus the neighbours, subtracted -x, +x, -y, +y, -z, +z: each difference is rounded, so the order shows.
fn stencil(x: &[f32], node: Node, plane: usize, row: usize) -> f32
    requires { (1 ≤ row) × (row ≤ plane) × (plane ≤ node.0) × (node.0 + plane < length x.now) }
    ensures { result ≡ stencil_at plane row x.now node.0 }
{
    let q = node.place();
    6.0 * x[q] - x[q - plane] - x[q + plane] - x[q - row] - x[q + row] - x[q - 1] - x[q + 1]
}

// A row that is not on the boundary. Its two ends are, and are written apart.
fn inner_row(x: &[f32], y: &mut [f32], first: Node, plane: usize)
    requires { (2 ≤ length y.old) × (length y.old ≤ plane) × (plane ≤ first.0) × (first.0 + length y.old + plane ≤ length x.now) }
    ensures { y.new ≡ tabulate (length y.old) (inner_row_at plane (length y.old) x.now first.0) }
{
    let n = y.len();
    y[0] = 0.0;
    for k in 1..n - 1 {
        y[k] = stencil(x, first.after(k), plane, n);
    }
    y[n - 1] = 0.0;
}

// Row i·n+j of A x.
fn apply_row(g: Grid, x: &[f32], y: &mut [f32], row: usize)
    requires sides { Sides g.nodes }
    requires row_bound { (row < g.nodes * g.nodes) × (length x.now ≡ all_nodes g) × (length y.old ≡ g.nodes) }
    ensures { y.new ≡ tabulate g.nodes (λ k. apply_at g.nodes x.now (row * g.nodes + k)) }
{
    let n = g.nodes;
    if g.boundary_row(row) {
        lists::clear(y);
    } else {
        inner_row(x, y, g.row_start(row), n * n);
    }
}

// A x between the first plane and the last: y has those planes only.
fn apply_between(g: Grid, x: &[f32], y: &mut [f32])
    requires sides { Sides g.nodes }
    requires x_len { (length x.now ≡ all_nodes g) × (length y.old ≡ (g.nodes - 2) * g.nodes * g.nodes) }
    ensures { y.new ≡ tabulate ((g.nodes - 2) * g.nodes * g.nodes) (λ k. apply_at g.nodes x.now (g.nodes * g.nodes + k)) }
{
    let n = g.nodes;
    let rows = (n - 2) * n;
    for r in 0..rows {
        let a = r * n;
        let e = a + n;
        apply_row(g, x, &mut y[a..e], n + r);
    }
}

// A x. The first and the last plane are all boundary and are written apart: with them in the loop, what a row reads would seem to reach outside x, and
// where y lies next to x that makes the compiler give up vector code.
pub fn apply(g: Grid, x: &[f32], y: &mut [f32])
    requires sides { Sides g.nodes }
    requires x_len { (length x.now ≡ all_nodes g) × (length y.old ≡ all_nodes g) }
    ensures { y.new ≡ applied g x.now }
{
    let n = g.nodes;
    let plane = n * n;
    let end = plane * n;
    let last = end - plane;
    lists::clear(&mut y[0..plane]);
    apply_between(g, x, &mut y[plane..last]);
    lists::clear(&mut y[last..end]);
}
