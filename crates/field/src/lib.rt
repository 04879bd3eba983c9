// Document 01, "Field", beside `vector_field` and `rhs` of the Rust's poisson.rs: the right side of the solver's equation on one grid. The blur is the
// crate `blur`'s. The Rust holds three components and blurs each into a new Vec; here each is spread into one slice and blurred to and fro between that
// and its own.
#![tactic(auto)]

mod divergence;
mod splat;

ghost use Rattle.std.specs.Prelude.{◌≡◌, ◌<◌, length};
ghost use Rattle.lists.specs.Lists.{zeros32};
ghost use Rattle.grid.specs.Grid.{Sides, all_nodes};
ghost use Rattle.points.specs.Points.{usables};
ghost use Rattle.blur.specs.Words.{radius_in, IsKernel};
ghost use Rattle.field.specs.Field.{component_of, right_side_by, right_side};

use blur::Kernel;
use grid::Grid;

// One component of the field, by way of s.
fn component(points: &[f32], g: Grid, kernel: &[f32], a: usize, s: &mut [f32], out: &mut [f32])
    requires { Sides g.nodes
        × IsKernel kernel.now
        × (a < 3)
        × (length s.old ≡ all_nodes g)
        × (length out.old ≡ all_nodes g) }
    ensures { out.new ≡ component_of g (usables points.now) (radius_in kernel.now) kernel.now a }
{
    splat::splat(g, points, a, s);
    blur::blur_all(g, kernel, s, out);
}

// The right side, with the blur's weights at hand. x, y and z take the components.
fn right_side_by(
    points: &[f32],
    g: Grid,
    kernel: &[f32],
    b: &mut [f32],
    s: &mut [f32],
    x: &mut [f32],
    y: &mut [f32],
    z: &mut [f32],
)
    requires { Sides g.nodes
        × IsKernel kernel.now
        × (length b.old ≡ all_nodes g)
        × (length s.old ≡ all_nodes g)
        × (length x.old ≡ all_nodes g)
        × (length y.old ≡ all_nodes g)
        × (length z.old ≡ all_nodes g) }
    ensures { b.new ≡ right_side_by g (usables points.now) (radius_in kernel.now) kernel.now }
{
    component(points, g, kernel, 0, s, x);
    component(points, g, kernel, 1, s, y);
    component(points, g, kernel, 2, s, z);
    divergence::divergence(g, x, y, z, b);
}

// The right side at every node of the grid. All five slices may come with anything in them; the four of scratch go back cleared.
pub fn right_side(
    points: &[f32],
    g: Grid,
    spacing: f64,
    smoothing: f32,
    b: &mut [f32],
    s: &mut [f32],
    x: &mut [f32],
    y: &mut [f32],
    z: &mut [f32],
)
    requires { Sides g.nodes
        × (length b.old ≡ all_nodes g)
        × (length s.old ≡ all_nodes g)
        × (length x.old ≡ all_nodes g)
        × (length y.old ≡ all_nodes g)
        × (length z.old ≡ all_nodes g) }
    ensures { (b.new ≡ right_side g (usables points.now) spacing smoothing)
        × (s.new ≡ zeros32 (all_nodes g))
        × (x.new ≡ zeros32 (all_nodes g))
        × (y.new ≡ zeros32 (all_nodes g))
        × (z.new ≡ zeros32 (all_nodes g)) }
{
    let kernel = Kernel::new(Kernel::sigma(smoothing, spacing, g.step));
    right_side_by(points, g, kernel.weights(), b, s, x, y, z);
    lists::clear(s);
    lists::clear(x);
    lists::clear(y);
    lists::clear(z);
}
