// Document 01, "Solver", its levels, beside `solve` of the Rust's poisson.rs. The Rust calls itself for the level before; here the levels rise in a loop,
// since each right side depends only on its own level. Where the Rust makes each grid as a `Vec`, seven slices are lent here, of which each level takes
// the front.
#![tactic(auto)]

ghost use Rattle.std.specs.Prelude.{◌≡◌, length};
ghost use Rattle.grid.specs.Grid.{Sides};
ghost use Rattle.points.specs.Points.{usables};
ghost use Rattle.levels.specs.Levels.{grid_at, nodes_at, solution};
ghost use Rattle.levels.specs.Slices.{SameSlices, ScratchCleared};
ghost use Rattle.levels.specs.Words.{IsDepth, LevelSlices, LevelsLeft};

mod rising;
mod starting;

use crate::rising::all_levels;
use grid::Grid;

// What is solved on every level: the cube, how the right side is smoothed, and when to stop.
#[derive(Clone, Copy)]
pub struct Problem {
    pub origin: [f64; 3],
    pub size: f64,
    pub spacing: f64,
    pub smoothing: f32,
    pub cap: usize,
    pub tolerance: f64,
}

impl Problem {
    // The grid of a level: all levels lie in one cube.
    pub fn grid(self, depth: u32) -> Grid
        requires { IsDepth depth }
        ensures { (result ≡ grid_at self depth) × Sides result.nodes }
    {
        let origin = self.origin;
        Grid::new(origin, self.size, depth)
    }
}

// The seven slices of a value a node: the solution, the level before and five of scratch. They are lent together and go back together.
#[derive(Drop)]
struct Slices<'a> {
    x: &'a mut [f32],
    before: &'a mut [f32],
    b: &'a mut [f32],
    s: &'a mut [f32],
    r: &'a mut [f32],
    p: &'a mut [f32],
    ap: &'a mut [f32],
}

impl Slices<'_> {
    // All but x, one after the other.
    fn clear_scratch(&mut self)
        ensures same { SameSlices self.old self.new }
        ensures cleared { ScratchCleared self.old self.new }
    {
        lists::clear(self.before);
        lists::clear(self.b);
        lists::clear(self.s);
        lists::clear(self.r);
        lists::clear(self.p);
        lists::clear(self.ap);
    }
}

// The solution at every node of the level `depth`: depth up to 4 is one level, started from zeros; above it the levels are 4 to depth. The six slices
// after x are scratch: rubbish at entry, zeros at exit.
pub fn solve(
    problem: Problem,
    depth: u32,
    points: &[f32],
    x: &mut [f32],
    before: &mut [f32],
    b: &mut [f32],
    s: &mut [f32],
    r: &mut [f32],
    p: &mut [f32],
    ap: &mut [f32],
)
    requires le_depth { IsDepth depth }
    requires level_slices { LevelSlices (nodes_at depth) x.old b.old s.old r.old p.old ap.old }
    requires before_len { length before.old ≡ nodes_at depth }
    ensures { LevelsLeft (nodes_at depth) (solution problem (usables points.now) depth) x.new before.new
        b.new s.new r.new p.new ap.new }
{
    let mut slices = Slices {
        x,
        before,
        b,
        s,
        r,
        p,
        ap,
    };
    all_levels(problem, points, depth, &mut slices);
    slices.clear_scratch();
}
