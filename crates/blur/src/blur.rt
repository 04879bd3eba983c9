// One pass of the blur along an axis, beside the Rust's `blur_axis`. The Rust sums node by node; here a whole row takes one offset's term after the
// other, so each node's sum has the same order. Outside terms are skipped; nothing is divided by the weights.
ghost use Rattle.std.specs.Prelude.{◌≡◌, ℕ, ◌+◌, ◌*◌, ◌≤◌, ◌<◌, length};
ghost use Rattle.lists.specs.Lists.{tabulate, at};
ghost use Rattle.grid.specs.Grid.{Sides, all_nodes, row_start};
ghost use Rattle.blur.specs.Blur.{moved_to, with_term, blur_at};
ghost use Rattle.blur.specs.Words.{radius_in, IsKernel, blur_by, plus_times, across, Reach, Line, FirstOutside};

use grid::{Grid, Node};

// The place moved by the offset t - radius, or none outside: an i32 sum, tested at both grid sides before the cast.
fn moved(place: usize, t: usize, radius: usize, n: usize) -> Option<usize>
    requires { (place ≤ 256) × (t ≤ 36) × (radius ≤ 18) × (n ≤ 256) }
    ensures { result ≡ moved_to n radius place t }
{
    let offset = t as i32 - radius as i32;
    let at = place as i32 + offset;
    if at < 0 {
        return None;
    }
    if at < n as i32 {
        Some(at as usize)
    } else {
        None
    }
}

// x[k] += w * p[k].
fn add_times(x: &mut [f32], p: &[f32], w: f32)
    requires { length x.old ≡ length p.now }
    ensures { x.new ≡ tabulate (length x.old) (plus_times w x.old p.now) }
{
    for k in 0..x.len() {
        x[k] = x[k] + w * p[k];
    }
}

// One offset's terms, added to the sums of a row whose lines run across it: all of them at one place of the lines, or all outside.
fn add_row(out: &mut [f32], v: &[f32], first: Node, stride: usize, place: Option<usize>, w: f32)
    requires { Reach first.0 stride (length out.old) (length v.now) place }
    ensures { out.new ≡ tabulate (length out.old)
        (λ k. with_term v.now (across first.0 stride k) w place (at out.old k)) }
{
    if let Some(p) = place {
        let a = first.0 + p * stride;
        let e = a + out.len();
        add_times(out, &v[a..e], w);
    }
}

// A row whose lines run across it, all its nodes at one place of theirs: `first` is the row at place 0, and the rows are `stride` numbers apart.
fn blur_across(
    out: &mut [f32],
    v: &[f32],
    first: Node,
    stride: usize,
    place: usize,
    n: usize,
    kernel: &[f32],
)
    requires { (place < n)
        × (n ≤ 256)
        × IsKernel kernel.now
        × ((p : ℕ) → p < n → first.0 + p * stride + length out.old ≤ length v.now) }
    ensures { out.new ≡ tabulate (length out.old)
        (λ k. blur_by v.now (across first.0 stride k) n place kernel.now) }
{
    lists::clear(out);
    let radius = kernel.len() / 2;
    for t in 0..kernel.len() {
        add_row(out, v, first, stride, moved(place, t, radius, n), kernel[t]);
    }
}

// One offset's terms, added to the sums of a row that is a line itself, where its first node's place is outside: the run of nodes inside ends at the last.
#[tactic(auto, using(crate::proofs::Moved::inside_moved))]
fn add_to_end(out: &mut [f32], v: &[f32], t: usize, radius: usize, w: f32)
    requires { Line out.old v.now × (t ≤ 36) × (radius ≤ 18) × FirstOutside (length out.old) radius t }
    ensures { out.new ≡ tabulate (length out.old)
        (λ k. with_term v.now (λ p. p) w (moved_to (length out.old) radius k t) (at out.old k)) }
{
    let n = out.len();
    if let Some(p) = moved(n - 1, t, radius, n) {
        let a = n - 1 - p;
        let e = p + 1;
        add_times(&mut out[a..n], &v[0..e], w);
    }
}

// One offset's terms, added to the sums of a row that is a line itself. The nodes inside are a run, found at its ends: from the first node on, or up to
// the last.
#[tactic(auto, using(crate::proofs::Moved::inside_moved))]
fn add_along(out: &mut [f32], v: &[f32], t: usize, radius: usize, w: f32)
    requires { Line out.old v.now × (t ≤ 36) × (radius ≤ 18) }
    ensures { out.new ≡ tabulate (length out.old)
        (λ k. with_term v.now (λ p. p) w (moved_to (length out.old) radius k t) (at out.old k)) }
{
    let n = out.len();
    match moved(0, t, radius, n) {
        Some(p) => {
            let e = n - p;
            add_times(&mut out[0..e], &v[p..n], w);
        }
        None => {
            add_to_end(out, v, t, radius, w);
        }
    }
}

// A row that is a line itself.
fn blur_along(out: &mut [f32], v: &[f32], kernel: &[f32])
    requires { Line out.old v.now × IsKernel kernel.now }
    ensures { out.new ≡ tabulate (length out.old)
        (λ k. blur_by v.now (λ p. p) (length out.old) k kernel.now) }
{
    lists::clear(out);
    let radius = kernel.len() / 2;
    for t in 0..kernel.len() {
        add_along(out, v, t, radius, kernel[t]);
    }
}

// Row i·n+j of the cube.
fn blur_row(out: &mut [f32], v: &[f32], g: Grid, row: usize, axis: usize, kernel: &[f32])
    requires { Sides g.nodes
        × (row < g.nodes * g.nodes)
        × (length out.old ≡ g.nodes)
        × (length v.now ≡ all_nodes g)
        × IsKernel kernel.now }
    ensures { out.new
        ≡ tabulate g.nodes (λ k. blur_at axis g.nodes (radius_in kernel.now) kernel.now v.now (row_start g.nodes row + k)) }
{
    let n = g.nodes;
    let i = row / n;
    let j = row % n;
    match axis {
        0 => blur_across(out, v, g.row_start(j), n * n, i, n, kernel),
        1 => blur_across(out, v, g.row_start(i * n), n, j, n, kernel),
        _ => {
            let a = row * n;
            let e = a + n;
            blur_along(out, &v[a..e], kernel);
        }
    }
}

// The pass, row by row.
pub fn blur_axis(g: Grid, v: &[f32], out: &mut [f32], axis: usize, kernel: &[f32])
    requires { Sides g.nodes
        × (length v.now ≡ all_nodes g)
        × (length out.old ≡ all_nodes g)
        × IsKernel kernel.now }
    ensures { out.new ≡ tabulate (all_nodes g) (blur_at axis g.nodes (radius_in kernel.now) kernel.now v.now) }
{
    let n = g.nodes;
    for row in 0..n * n {
        let a = row * n;
        let e = a + n;
        blur_row(&mut out[a..e], v, g, row, axis, kernel);
    }
}
