// Where the vertex on an edge lies.
ghost use Rattle.std.specs.Prelude.{◌≡◌, ◌*◌, ◌≤◌};
ghost use Rattle.grid.specs.Grid.{world_along};
ghost use Rattle.numbers.specs.Arithmetic.{narrowed};
ghost use Rattle.cells.specs.Extraction.{crossing, count_along, count_y, count_z, edge_point};
ghost use Rattle.cells.specs.Words.{Inner, stride};
ghost use Rattle.grid.specs.Grid.{Counts};

use crate::Isosurface;
use grid::{Edge, Lattice};

// "From the lower node, t = clamp((iso-v0)/(v1-v0)) to 0..1 in f32."
fn crossing_at(v0: f32, v1: f32, iso: f32) -> f32
    ensures { result ≡ crossing v0 v1 iso }
{
    arith::clamp((iso - v0) / (v1 - v0), 0.0, 1.0)
}

// The count along axis a, in f64; along the edge's own axis t is added.
fn count_along(axis: usize, a: usize, count: usize, t: f32) -> f64
    requires { count ≤ 16777216 }
    ensures { result ≡ count_along axis a count t }
{
    if a == axis {
        count as f64 + arith::widen(t)
    } else {
        count as f64
    }
}

// "Each coordinate is origin + count·step, narrowed."
fn coordinate(origin: f64, step: f64, count: f64) -> f32
    ensures { result ≡ narrowed (world_along origin step count) }
{
    arith::canonical(arith::narrow(origin + count * step))
}

// How much greater the number of the next node along an axis is.
fn stride_of(lattice: Lattice, axis: usize) -> usize
    requires { Counts lattice.counts }
    ensures { result ≡ stride (count_y lattice) (count_z lattice) axis }
{
    let [_, ny, nz] = lattice.counts;
    if axis == 0 {
        ny * nz
    } else if axis == 1 {
        nz
    } else {
        1
    }
}

impl Isosurface<'_> {
    // The coordinates of the vertex on an edge.
    pub fn point(&self, edge: Edge) -> [f32; 3]
        requires { Counts self.now.lattice.counts × Inner self.now.values.now self.now.lattice edge.0 }
        ensures { result ≡ edge_point self.now.values.now self.now.lattice self.now.iso edge.0 }
    {
        let lattice = self.lattice;
        let axis = edge.axis();
        let node = edge.node();
        let at = lattice.coords(node);
        let n = node.place();
        let t = crossing_at(
            self.values[n],
            self.values[n + stride_of(lattice, axis)],
            self.iso,
        );
        let x = count_along(axis, 0, at[0], t);
        let y = count_along(axis, 1, at[1], t);
        let z = count_along(axis, 2, at[2], t);
        [
            coordinate(lattice.origin[0], lattice.step[0], x),
            coordinate(lattice.origin[1], lattice.step[1], y),
            coordinate(lattice.origin[2], lattice.step[2], z),
        ]
    }
}
