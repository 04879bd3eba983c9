// The right side at every node, beside the Rust's `rhs`: -h² times the divergence of the field, whose components are x, y and z.
ghost use Rattle.std.specs.Prelude.{◌≡◌, ◌+◌, ◌*◌, ◌≤◌, ◌<◌, length};
ghost use Rattle.lists.specs.Lists.{tabulate};
ghost use Rattle.numbers.specs.Arithmetic.{narrowed};
ghost use Rattle.grid.specs.Grid.{Sides, all_nodes};
ghost use Rattle.field.specs.Field.{slope_at, right_side_at};
ghost use Rattle.field.specs.Words.{inner_at, row_at};

use grid::{Grid, Node};

// (next - previous)/(2·h), along an axis whose neighbours are `stride` numbers apart.
fn slope(v: &[f32], node: Node, stride: usize, h: f32) -> f32
    requires { (stride ≤ node.0) × (node.0 + stride < length v.now) }
    ensures { result ≡ slope_at h v.now node.0 stride }
{
    (v[node.0 + stride] - v[node.0 - stride]) / (2.0 * h)
}

// The right side at a node off the boundary. The sum over the axes starts from -0.0, as the Rust's `sum` does, and `-h * h` is (-h)·h.
fn inner(x: &[f32], y: &[f32], z: &[f32], node: Node, n: usize, h: f32) -> f32
    requires { (1 ≤ n)
        × (n ≤ n * n)
        × (n * n ≤ node.0)
        × (node.0 + n * n < length x.now)
        × (length y.now ≡ length x.now)
        × (length z.now ≡ length x.now) }
    ensures { result ≡ inner_at n h x.now y.now z.now node.0 }
{
    let divergence = -0.0 + slope(x, node, n * n, h) + slope(y, node, n, h) + slope(z, node, 1, h);
    -h * h * divergence
}

// A row off the boundary. Its two ends are on it: they are written apart, so the loop has no test.
fn inner_row(b: &mut [f32], x: &[f32], y: &[f32], z: &[f32], first: Node, h: f32)
    requires { (2 ≤ length b.old)
        × (length b.old ≤ 256)
        × (length b.old * length b.old ≤ first.0)
        × (first.0 + length b.old + length b.old * length b.old ≤ length x.now)
        × (length y.now ≡ length x.now)
        × (length z.now ≡ length x.now) }
    ensures { b.new ≡ tabulate (length b.old)
        (row_at (length b.old) h x.now y.now z.now first.0) }
{
    let n = b.len();
    b[0] = 0.0;
    for k in 1..n - 1 {
        b[k] = inner(x, y, z, first.after(k), n, h);
    }
    b[n - 1] = 0.0;
}

// Row i·n+j, which may be on the boundary as a whole.
fn any_row(g: Grid, b: &mut [f32], x: &[f32], y: &[f32], z: &[f32], row: usize, h: f32)
    requires { Sides g.nodes
        × (row < g.nodes * g.nodes)
        × (length b.old ≡ g.nodes)
        × (length x.now ≡ all_nodes g)
        × (length y.now ≡ all_nodes g)
        × (length z.now ≡ all_nodes g) }
    ensures { b.new ≡ tabulate g.nodes (λ k. right_side_at g.nodes h x.now y.now z.now (row * g.nodes + k)) }
{
    if g.boundary_row(row) {
        lists::clear(b);
    } else {
        inner_row(b, x, y, z, g.row_start(row), h);
    }
}

// Every row, with h narrowed.
pub fn divergence(g: Grid, x: &[f32], y: &[f32], z: &[f32], b: &mut [f32])
    requires { Sides g.nodes
        × (length x.now ≡ all_nodes g)
        × (length y.now ≡ all_nodes g)
        × (length z.now ≡ all_nodes g)
        × (length b.old ≡ all_nodes g) }
    ensures { b.new ≡ tabulate (all_nodes g) (right_side_at g.nodes (narrowed g.step) x.now y.now z.now) }
{
    let n = g.nodes;
    let h = arith::narrow(g.step);
    for row in 0..n * n {
        let a = row * n;
        let e = a + n;
        any_row(g, &mut b[a..e], x, y, z, row, h);
    }
}
