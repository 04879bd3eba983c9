// The levels, from the first on: a loop where the Rust calls itself.
ghost use Rattle.std.specs.Prelude.{◌≡◌, ◌+◌, ◌-◌, ◌≤◌, ◌<◌, length, take};
ghost use Rattle.grid.specs.Grid.{Sides, all_nodes};
ghost use Rattle.points.specs.Points.{usables};
ghost use Rattle.levels.specs.Levels.{grid_at, nodes_at, start_from, level_from, risen, solution};
ghost use Rattle.levels.specs.Slices.{SameSlices, AllSized};
ghost use Rattle.levels.specs.Words.{IsDepth, LevelSlices};

use crate::starting::start_front;
use crate::{Problem, Slices};
use grid::Grid;

// One level, from x on: its right side, then conjugate gradients. Three of the right side's four scratch slices are r, p and ap then.
fn level(
    problem: Problem,
    points: &[f32],
    g: Grid,
    x: &mut [f32],
    b: &mut [f32],
    s: &mut [f32],
    r: &mut [f32],
    p: &mut [f32],
    ap: &mut [f32],
)
    requires sides { Sides g.nodes }
    requires level_slices { LevelSlices (all_nodes g) x.old b.old s.old r.old p.old ap.old }
    ensures { x.new ≡ level_from problem (usables points.now) g x.old }
{
    field::right_side(
        points,
        g,
        problem.spacing,
        problem.smoothing,
        b,
        s,
        r,
        p,
        ap,
    );
    solver::conjugate_gradient(g, b, x, r, p, ap, problem.tolerance, problem.cap);
}

// The same in the fronts of longer slices.
fn level_front(problem: Problem, points: &[f32], g: Grid, slices: &mut Slices)
    requires sides { Sides g.nodes }
    requires sized { AllSized (length slices.old.x.now) slices.old }
    requires g_in_bounds { all_nodes g ≤ length slices.old.x.now }
    ensures same { SameSlices slices.old slices.new }
    ensures sized { AllSized (length slices.old.x.now) slices.new }
    ensures front { take (all_nodes g) slices.new.x.now ≡ level_from problem (usables points.now) g (take (all_nodes g) slices.old.x.now) }
{
    let n = g.len();
    level(
        problem,
        points,
        g,
        &mut slices.x[..n],
        &mut slices.b[..n],
        &mut slices.s[..n],
        &mut slices.r[..n],
        &mut slices.p[..n],
        &mut slices.ap[..n],
    );
}

// The first level, from zeros.
fn first_level(problem: Problem, points: &[f32], depth: u32, slices: &mut Slices)
    requires le_depth { IsDepth depth }
    requires sized { AllSized (length slices.old.x.now) slices.old }
    requires depth_in_bounds { nodes_at depth ≤ length slices.old.x.now }
    ensures same { SameSlices slices.old slices.new }
    ensures sized { AllSized (length slices.old.x.now) slices.new }
    ensures front { take (nodes_at depth) slices.new.x.now ≡ risen problem (usables points.now) depth 0 }
{
    lists::clear(slices.x);
    level_front(problem, points, problem.grid(depth), slices);
}

// The level after the one of this depth, which the front of x holds.
fn next_level(problem: Problem, points: &[f32], depth: u32, slices: &mut Slices)
    requires le_depth { (1 ≤ depth) × (depth < 8) }
    requires sized { AllSized (length slices.old.x.now) slices.old }
    requires nodes_in_bounds { (nodes_at depth ≤ length slices.old.x.now) × (nodes_at (depth + 1) ≤ length slices.old.x.now) }
    ensures same { SameSlices slices.old slices.new }
    ensures sized { AllSized (length slices.old.x.now) slices.new }
    ensures front { take (nodes_at (depth + 1)) slices.new.x.now ≡ level_from problem (usables points.now) (grid_at problem (depth + 1))
        (start_from (grid_at problem depth) (grid_at problem (depth + 1)) (take (nodes_at depth) slices.old.x.now)) }
{
    let g = problem.grid(depth + 1);
    start_front(problem.grid(depth), g, slices.before, slices.x);
    level_front(problem, points, g, slices);
}

// The levels after the first, up to the depth; the front of x holds the first.
fn rise(problem: Problem, points: &[f32], first: u32, depth: u32, slices: &mut Slices)
    requires le_first { (1 ≤ first) × (first ≤ depth) × (depth ≤ 8) }
    requires sized { AllSized (nodes_at depth) slices.old }
    requires first_done { take (nodes_at first) slices.old.x.now ≡ risen problem (usables points.now) first 0 }
    ensures same { SameSlices slices.old slices.new }
    ensures sized { AllSized (nodes_at depth) slices.new }
    ensures all { slices.new.x.now ≡ risen problem (usables points.now) first (depth - first) }
{
    for d in first..depth {
        next_level(problem, points, d, slices);
    }
}

// All levels. The first is the coarsest, or the depth itself where that is less.
pub fn all_levels(problem: Problem, points: &[f32], depth: u32, slices: &mut Slices)
    requires le_depth { IsDepth depth }
    requires sized { AllSized (nodes_at depth) slices.old }
    ensures same { SameSlices slices.old slices.new }
    ensures sized { AllSized (nodes_at depth) slices.new }
    ensures solved { slices.new.x.now ≡ solution problem (usables points.now) depth }
{
    let first = depth.min(Grid::COARSEST_DEPTH);
    first_level(problem, points, first, slices);
    rise(problem, points, first, depth, slices);
}
