// Document 01, "Field", its blur, beside the second half of `vector_field` and `blur_axis` of the Rust's poisson.rs: a component of the field blurred
// along axes 0, 1, 2. The Rust blurs into a new Vec each time; here the passes go to and fro between two slices.
#![tactic(auto)]

mod blur;
mod kernel;

ghost use Rattle.std.specs.Prelude.{◌≡◌, length};
ghost use Rattle.grid.specs.Grid.{Sides, all_nodes};
ghost use Rattle.blur.specs.Blur.{blurred_along, blurred};
ghost use Rattle.blur.specs.Words.{radius_in, IsKernel};

pub use crate::blur::blur_axis;
use grid::Grid;
pub use kernel::Kernel;

// Axes 0, 1, 2: from s to out, back, and again. s is left with what the last pass read.
pub fn blur_all(g: Grid, kernel: &[f32], s: &mut [f32], out: &mut [f32])
    requires { Sides g.nodes
        × IsKernel kernel.now
        × (length s.old ≡ all_nodes g)
        × (length out.old ≡ all_nodes g) }
    ensures out_after { out.new ≡ blurred g.nodes (radius_in kernel.now) kernel.now s.old }
    ensures s_after { s.new ≡ blurred_along 1 g.nodes (radius_in kernel.now) kernel.now
        (blurred_along 0 g.nodes (radius_in kernel.now) kernel.now s.old) }
{
    blur_axis(g, s, out, 0, kernel);
    blur_axis(g, out, s, 1, kernel);
    blur_axis(g, s, out, 2, kernel);
}
