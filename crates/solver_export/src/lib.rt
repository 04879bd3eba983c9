// Functions of `blur`, `laplacian`, `solver` and `levels` for C and Rust to call, so that they can be tested and timed on any processor. Each is that of
// its crate, and its contract too. The caller keeps what a `requires` asks: lengths that fit. Nothing checks it at the boundary.
#![tactic(auto)]

ghost use Rattle.std.specs.Prelude.{◌≡◌, [], ◌∷◌, ◌*◌, ◌≤◌, length};
ghost use Rattle.lists.specs.Lists.{tabulate};
ghost use Rattle.grid.specs.Grid.{Sides};
ghost use Rattle.points.specs.Points.{usables};
ghost use Rattle.blur.specs.Blur.{offset_count, blurred_along};
ghost use Rattle.laplacian.specs.Laplacian.{apply_at};
ghost use Rattle.solver.specs.Solver.{conjugate};
ghost use Rattle.solver.specs.Words as level;
ghost use Rattle.levels.specs.Levels.{nodes_at, solution};
ghost use Rattle.levels.specs.Words.{IsDepth, LevelSlices, LevelsLeft};
ghost use Rattle.solver_export.specs.Words.{grid_of_side};

use grid::Grid;
use levels::Problem;

// One pass of the blur along an axis. The kernel's length says its radius too; C hands over both.
#[unsafe(no_mangle)]
pub extern "C" fn hoardmagpie_blur_axis(
    v: &[f32],
    out: &mut [f32],
    nodes: usize,
    axis: usize,
    kernel: &[f32],
    radius: usize,
)
    requires sides { Sides nodes }
    requires v_len { (length v.now ≡ nodes * nodes * nodes) × (length out.old ≡ nodes * nodes * nodes) }
    requires radius_bound { (radius ≤ 18) × (length kernel.now ≡ offset_count radius) }
    ensures { out.new ≡ blurred_along axis nodes radius kernel.now v.now }
{
    let g = Grid {
        nodes,
        origin: [0.0, 0.0, 0.0],
        step: 0.0,
    };
    blur::blur_axis(g, v, out, axis, kernel);
}

// A x.
#[unsafe(no_mangle)]
pub extern "C" fn hoardmagpie_apply(x: &[f32], y: &mut [f32], nodes: usize)
    requires sides { Sides nodes }
    requires x_len { (length x.now ≡ nodes * nodes * nodes) × (length y.old ≡ nodes * nodes * nodes) }
    ensures { y.new ≡ tabulate (nodes * nodes * nodes) (apply_at nodes x.now) }
{
    let g = Grid {
        nodes,
        origin: [0.0, 0.0, 0.0],
        step: 0.0,
    };
    laplacian::apply(g, x, y);
}

// The solution of A x = b from x on, in at most `cap` steps.
#[unsafe(no_mangle)]
pub extern "C" fn hoardmagpie_conjugate_gradient(
    b: &[f32],
    x: &mut [f32],
    r: &mut [f32],
    p: &mut [f32],
    ap: &mut [f32],
    nodes: usize,
    tolerance: f64,
    cap: usize,
)
    requires sides { Sides nodes }
    requires b_len { (length b.now ≡ nodes * nodes * nodes)
        × (length x.old ≡ nodes * nodes * nodes)
        × (length r.old ≡ nodes * nodes * nodes)
        × (length p.old ≡ nodes * nodes * nodes)
        × (length ap.old ≡ nodes * nodes * nodes) }
    ensures { level.SolutionLeft (grid_of_side nodes) (conjugate (grid_of_side nodes) tolerance cap b.now x.old) x.new
        r.new p.new ap.new }
{
    let g = Grid {
        nodes,
        origin: [0.0, 0.0, 0.0],
        step: 0.0,
    };
    solver::conjugate_gradient(g, b, x, r, p, ap, tolerance, cap);
}

// The solution on the grid of 2^depth nodes per side, with all levels before it. The cube is `size` wide from (i, j, k) on.
#[unsafe(no_mangle)]
pub extern "C" fn hoardmagpie_solve(
    points: &[f32],
    i: f64,
    j: f64,
    k: f64,
    size: f64,
    spacing: f64,
    smoothing: f32,
    cap: usize,
    tolerance: f64,
    depth: u32,
    x: &mut [f32],
    before: &mut [f32],
    b: &mut [f32],
    s: &mut [f32],
    r: &mut [f32],
    p: &mut [f32],
    ap: &mut [f32],
)
    requires le_depth { IsDepth depth }
    requires level_slices { LevelSlices (nodes_at depth) x.old b.old s.old r.old p.old ap.old }
    requires before_len { length before.old ≡ nodes_at depth }
    ensures { LevelsLeft (nodes_at depth)
        (solution
        (record { origin = i ∷ j ∷ k ∷ []; size = size; spacing = spacing; smoothing = smoothing; cap = cap; tolerance = tolerance })
        (usables points.now) depth)
        x.new before.new b.new s.new r.new p.new ap.new }
{
    let problem = Problem {
        origin: [i, j, k],
        size,
        spacing,
        smoothing,
        cap,
        tolerance,
    };
    levels::solve(problem, depth, points, x, before, b, s, r, p, ap);
}
