// Functions of `points`, `search` and `grid` for C and Rust to call, so that they can be tested and timed on any processor. Each is that of its crate,
// and its contract too. The caller keeps what a `requires` asks: lengths that fit. Nothing checks it at the boundary.
#![tactic(auto)]

ghost use Rattle.std.specs.Prelude.{◌≡◌, [], ◌∷◌, ◌*◌, ◌≤◌, length};
ghost use Rattle.lists.specs.Lists.{zeros32};
ghost use Rattle.points.specs.Points.{given, usables};
ghost use Rattle.points.specs.Box.{bounds_of, extent_of};
ghost use Rattle.search.specs.Spacing.{spacing_of};
ghost use Rattle.grid.specs.Grid.{Sides, sampled};

#[unsafe(no_mangle)]
pub extern "C" fn hoardmagpie_usable_count(points: &[f32]) -> usize
    ensures { result ≡ length (usables points.now) }
{
    points::usable_count(points)
}

#[unsafe(no_mangle)]
pub extern "C" fn hoardmagpie_extent(points: &[f32]) -> f64
    ensures { result ≡ extent_of (bounds_of (usables points.now)) }
{
    points::Bounds::of(points).extent()
}

// The list has one number for each given point.
#[unsafe(no_mangle)]
pub extern "C" fn hoardmagpie_spacing(points: &[f32], list: &mut [f32], extent: f64) -> f64
    requires { given points.now ≤ length list.old }
    ensures { (result ≡ spacing_of (usables points.now) extent) × (list.new ≡ zeros32 (length list.old)) }
{
    search::spacing(points, list, extent)
}

// The grid has `nodes` per side from (a, b, c) on, `step` apart; the place is (x, y, z).
#[unsafe(no_mangle)]
pub extern "C" fn hoardmagpie_sample(
    values: &[f32],
    nodes: usize,
    a: f64,
    b: f64,
    c: f64,
    step: f64,
    x: f64,
    y: f64,
    z: f64,
) -> f64
    requires sides { Sides nodes }
    requires values_len { length values.now ≡ nodes * nodes * nodes }
    ensures { result ≡ sampled (record { nodes = nodes; origin = a ∷ b ∷ c ∷ []; step = step }) values.now (x ∷ y ∷ z ∷ []) }
{
    let g = grid::Grid {
        nodes,
        origin: [a, b, c],
        step,
    };
    g.sample(values, [x, y, z])
}
