// Conjugate gradients for A x = b: the Rust's `conjugate_gradient`, whose vectors are lent here.
ghost use Rattle.std.specs.Prelude.{◌≡◌, length};
ghost use Rattle.grid.specs.Grid.{all_nodes};
ghost use Rattle.solver.specs.Solver.{started, steps, conjugate};
ghost use Rattle.vectors.specs.Words.{NodeSlices};
ghost use Rattle.solver.specs.Words.{SolutionLeft};
ghost use Rattle.solver.specs.Runs.{SameRun, OneANode, state_of, Updated, Turned};

use grid::Grid;
use laplacian::apply;
use vectors::{advance, copy, dot, less, xpay};

// The four vectors: the solution so far, the residual, the direction, and A p. They are lent together and go back together.
#[derive(Drop)]
struct Run<'a> {
    x: &'a mut [f32],
    r: &'a mut [f32],
    p: &'a mut [f32],
    ap: &'a mut [f32],
}

// The step by alpha: x, r, rr, beta and p, in this order. It answers the new rr.
fn update(g: Grid, run: &mut Run, alpha: f32, rr: f64) -> f64
    requires { OneANode g run.old }
    ensures same { SameRun run.old run.new }
    ensures sized { OneANode g run.new }
    ensures updated { Updated g alpha (state_of run.old rr) run.old.ap.now (state_of run.new result) }
{
    let r = &mut *run.r;
    let p = &mut *run.p;
    let ap = &mut *run.ap;
    let rr_new = advance(g, run.x, r, p, ap, alpha);
    let beta = arith::narrow(rr_new / rr);
    xpay(p, r, beta);
    rr_new
}

// One turn. It answers the new rr, or none where no later turn changes x. A NaN stops neither test. But where alpha is NaN, the update makes x, r and p NaN
// at all nodes, and no later turn changes anything: so the loop may be left then, and not before.
fn one_turn(g: Grid, run: &mut Run, rr: f64, limit: f64) -> Option<f64>
    requires { OneANode g run.old }
    ensures same { SameRun run.old run.new }
    ensures sized { OneANode g run.new }
    ensures turned { Turned g limit (state_of run.old rr) result run.new }
{
    if arith::root(rr) <= limit {
        return None;
    }
    let p = &mut *run.p;
    let ap = &mut *run.ap;
    apply(g, p, ap);
    let pap = dot(g, p, ap);
    if pap <= 0.0 {
        return None;
    }
    let alpha = arith::narrow(rr / pap);
    let rr_new = update(g, run, alpha, rr);
    if alpha.is_nan() {
        return None;
    }
    Some(rr_new)
}

// At most cap turns.
fn turns(g: Grid, run: &mut Run, start: f64, limit: f64, cap: usize)
    requires { OneANode g run.old }
    ensures same { SameRun run.old run.new }
    ensures sized { OneANode g run.new }
    ensures turned { run.new.x.now ≡ (steps g limit cap (state_of run.old start)).x }
{
    let mut rr = start;
    for _ in 0..cap {
        let Some(rr_new) = one_turn(g, run, rr, limit) else {
            return;
        };
        rr = rr_new;
    }
}

// r = b - A x, p = r. It answers rr.
fn begin(g: Grid, b: &[f32], run: &mut Run) -> f64
    requires sized { OneANode g run.old }
    requires b_len { length b.now ≡ all_nodes g }
    ensures same { SameRun run.old run.new }
    ensures sized { OneANode g run.new }
    ensures started { state_of run.new result ≡ started g b.now run.old.x.now }
{
    let x = &mut *run.x;
    let r = &mut *run.r;
    let ap = &mut *run.ap;
    apply(g, x, ap);
    less(r, b, ap);
    copy(run.p, r);
    dot(g, r, r)
}

// From x on, at most cap steps; a zero right side leaves x as it started. What is left in r, p and ap is of no use.
fn descend(g: Grid, b: &[f32], run: &mut Run, tolerance: f64, cap: usize)
    requires sized { OneANode g run.old }
    requires b_len { length b.now ≡ all_nodes g }
    ensures same { SameRun run.old run.new }
    ensures sized { OneANode g run.new }
    ensures solved { run.new.x.now ≡ conjugate g tolerance cap b.now run.old.x.now }
{
    let norm = arith::root(dot(g, b, b));
    if norm == 0.0 {
        return;
    }
    let rr = begin(g, b, run);
    turns(g, run, rr, tolerance * norm, cap);
}

// The solution of A x = b, from x on. r, p and ap are scratch: rubbish at entry, zeros at exit.
pub fn conjugate_gradient(
    g: Grid,
    b: &[f32],
    x: &mut [f32],
    r: &mut [f32],
    p: &mut [f32],
    ap: &mut [f32],
    tolerance: f64,
    cap: usize,
)
    requires node_slices { NodeSlices g x.old r.old p.old ap.old }
    requires b_len { length b.now ≡ all_nodes g }
    ensures { SolutionLeft g (conjugate g tolerance cap b.now x.old) x.new r.new p.new
        ap.new }
{
    let mut run = Run { x, r, p, ap };
    descend(g, b, &mut run, tolerance, cap);
    lists::clear(run.r);
    lists::clear(run.p);
    lists::clear(run.ap);
}
