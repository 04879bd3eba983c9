// The usable points spread over the nodes round them, one component of their units at a time; in the Rust the first half of `vector_field`.
ghost use Rattle.std.specs.Prelude.{◌≡◌, cond, ◌*◌, length};
ghost use Rattle.grid.specs.Grid.{Sides, CellInside, all_nodes};
ghost use Rattle.points.specs.Points.{usable_of, usables};
ghost use Rattle.field.specs.Field.{corner_added, point_added, splatted};
ghost use Rattle.field.specs.Words.{Spread};

use grid::{Cell, Grid};
use points::Point;

// The narrowed weight·unit at corner c: the product in f64, the sum in f32.
#[tactic(auto, using(crate::proofs::Corners::corner_within))]
fn add_corner(v: &mut [f32], g: Grid, cell: Cell, u: f64, c: usize)
    requires { Sides g.nodes × CellInside g.nodes cell × (length v.old ≡ all_nodes g) }
    ensures { v.new ≡ corner_added g.nodes cell u c v.old }
{
    let q = g.corner(cell, c).place();
    v[q] = v[q] + arith::narrow(cell.weight(c) * u);
}

// A point's unit, component a, at the eight corners of its cell in order.
fn add_point(v: &mut [f32], g: Grid, p: Point, a: usize)
    requires { Spread g v.old a }
    ensures { v.new ≡ point_added g a v.old p }
{
    let cell = g.cell(p.place());
    let unit = p.unit();
    let u = unit[a];
    for c in 0..8 {
        add_corner(v, g, cell, u, c);
    }
}

// A point that is skipped adds nothing.
fn add_usable(v: &mut [f32], g: Grid, p: Point, a: usize)
    requires { Spread g v.old a }
    ensures { v.new ≡ cond (usable_of p) (point_added g a v.old p) v.old }
{
    if p.usable() {
        add_point(v, g, p, a);
    }
}

// All points in order, from zeros.
pub fn splat(g: Grid, points: &[f32], a: usize, v: &mut [f32])
    requires { Spread g v.old a }
    ensures { v.new ≡ splatted g (usables points.now) a }
{
    lists::clear(v);
    for p in Point::all(points) {
        add_usable(v, g, p, a);
    }
}
