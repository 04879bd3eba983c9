// The level: the surface goes through the points on the average.
ghost use Rattle.std.specs.Prelude.{◌≡◌, ◌≤◌, length};
ghost use Rattle.grid.specs.Grid.{Sides, all_nodes};
ghost use Rattle.points.specs.Points.{given, usables};
ghost use Rattle.surface.specs.Surface.{level_of};

use grid::Grid;
use points::Point;

// The mean of the samples at the usable points, plus an offset, narrowed. The sum starts from -0.0, as the Rust's `sum`.
pub fn level(g: Grid, values: &[f32], points: &[f32], offset: f32) -> f32
    requires sides { Sides g.nodes }
    requires values_len { length values.now ≡ all_nodes g }
    requires points_bound { given points.now ≤ 1048576 }
    ensures { result ≡ level_of g values.now (usables points.now) offset }
{
    let sum = Point::all(points)
        .filter(|p| p.usable())
        .fold(-0.0, |sum, p| sum + g.sample(values, p.place()));
    arith::narrow(sum / points::usable_count(points) as f64 + arith::widen(offset))
}
