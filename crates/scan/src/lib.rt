// Document 01, the stages of a call in the order of the data's way; the middle of `poisson_reconstruction` in the Rust's poisson.rs. What the two calls take
// from below: the checks of the points, the grid, which is made once, and the field with its level; then what only the whole call needs, the mesh and the
// answer. Lent grids may be longer than stated: a stage that is lent them as one value takes their fronts.
#![tactic(auto)]

ghost use Rattle.std.specs.Prelude.{◌≡◌, ◌*◌, ◌≤◌, length, take, drop};
ghost use Rattle.grid.specs.Grid.{Sides, all_nodes};
ghost use Rattle.points.specs.Points.{given, usables};
ghost use Rattle.points.specs.Box.{bounds_of};
ghost use Rattle.answers.specs.Answers.{◌then◌};
ghost use Rattle.settings.specs.Refusals.{usable_verdict, extent_verdict};
ghost use Rattle.surface.specs.Surface.{level_of};
ghost use Rattle.ending.specs.Slices.{slices_of, SameGrids};
ghost use Rattle.scan.specs.Reconstruction.{extent_for, lengths_of};
ghost use Rattle.scan.specs.Words.{GridOver, Lent, Solved, MeshAsked, MeshMade, GridsAsked, GridsMade, mesh_outcome, trimmed_answer};

use answers::{Answer, Refusal};
use ending::Grids;
use grid::Grid;
use levels::Problem;
use meshes::MeshSize;
use points::Bounds;
use settings::{Lengths, Settings};

// What the points themselves tell. 4: "fewer than 10 usable points". 5: "largest extent is zero".
pub fn check_points(points: &[f32]) -> Result<(), Refusal>
    ensures { result ≡ usable_verdict (length (usables points.now)) then extent_verdict (extent_for (usables points.now)) }
{
    settings::usable_verdict(points::usable_count(points))?;
    settings::extent_verdict(Bounds::of(points).extent())
}

// How long the lent slices are.
pub fn lengths_of(
    vertices: &[f32],
    faces: &[u32],
    grids: &Grids,
    edges: &[u32],
    distances: &[f32],
) -> Lengths
    ensures { result ≡ lengths_of (slices_of vertices.now faces.now grids.now edges.now distances.now) }
{
    let grid_lengths = grids.lengths();
    Lengths {
        vertices: vertices.len(),
        faces: faces.len(),
        grids: grid_lengths,
        edges: edges.len(),
        distances: distances.len(),
    }
}

// The grid over the cube round the points.
pub fn make_grid(bounds: Bounds, settings: Settings) -> Grid
    requires { (1 ≤ settings.depth) × (settings.depth ≤ 8) }
    ensures { GridOver bounds settings result }
{
    Grid::new(bounds.origin(), bounds.side(), settings.depth)
}

// Spacing, field, level: the field is left in the first grid and the level is returned, all else is zero, as far as there are nodes.
pub fn field_and_level(
    points: &[f32],
    settings: Settings,
    bounds: Bounds,
    g: Grid,
    grids: &mut Grids,
    distances: &mut [f32],
) -> f32
    requires bounds_value { (bounds ≡ bounds_of (usables points.now)) × GridOver bounds settings g }
    requires lent { Lent points.now settings grids.old distances.old }
    ensures same { SameGrids grids.old grids.new }
    ensures solved { Solved (usables points.now) settings result grids.old grids.new distances.old distances.new }
{
    let spacing = search::spacing(points, distances, bounds.extent());
    let origin = bounds.origin();
    let problem = Problem {
        origin,
        size: bounds.side(),
        spacing,
        smoothing: settings.smoothing,
        cap: settings.max_iterations,
        tolerance: settings.tolerance,
    };
    let n = settings::nodes(settings.depth);
    levels::solve(
        problem,
        settings.depth,
        points,
        &mut grids.s0[..n],
        &mut grids.s1[..n],
        &mut grids.s2[..n],
        &mut grids.s3[..n],
        &mut grids.s4[..n],
        &mut grids.s5[..n],
        &mut grids.s6[..n],
    );
    level_of(points, settings, g, grids)
}

// The level of the field at the front of the first grid.
fn level_of(points: &[f32], settings: Settings, g: Grid, grids: &Grids) -> f32
    requires sides { Sides g.nodes }
    requires room { all_nodes g ≤ length grids.now.s0.now }
    requires points_bound { given points.now ≤ 1048576 }
    ensures { result ≡ level_of g (take (all_nodes g) grids.now.s0.now) (usables points.now) settings.iso_offset }
{
    let n = g.len();
    surface::level(g, &grids.s0[..n], points, settings.iso_offset)
}

// Extraction, orientation and trim: the returned mesh stands at the front of its slices with zeros past it; the edge table and the three slices are zero.
pub fn make_mesh(
    points: &[f32],
    settings: Settings,
    g: Grid,
    level: f32,
    vertices: &mut [f32],
    faces: &mut [u32],
    field: &[f32],
    a: &mut [f32],
    b: &mut [f32],
    c: &mut [f32],
    edges: &mut [u32],
) -> MeshSize
    requires { MeshAsked (usables points.now) settings g level vertices.old faces.old field.now a.old b.old c.old edges.old }
    ensures { MeshMade (usables points.now) settings result
        vertices.old vertices.new
        faces.old faces.new
        a.old a.new
        b.old b.new
        c.old c.new
        edges.old edges.new }
{
    extract::write_mesh(field, g.lattice(), level, edges, vertices, faces);
    orientation::orient(g, field, vertices, faces);
    let trimming = settings.trimming;
    trim::trim(trimming, points, vertices, faces, edges, a, b, c)
}

// The same at the fronts of longer slices, n elements of each over nodes and 3n of the edge table; past the fronts nothing is touched. The
// field is lent as the others are, since it stands beside them in one value, and only read.
fn make_mesh_front(
    points: &[f32],
    settings: Settings,
    g: Grid,
    level: f32,
    n: usize,
    vertices: &mut [f32],
    faces: &mut [u32],
    field: &mut [f32],
    a: &mut [f32],
    b: &mut [f32],
    c: &mut [f32],
    edges: &mut [u32],
) -> MeshSize
    requires room { (n ≤ length field.old) × (n ≤ length a.old) × (n ≤ length b.old) × (n ≤ length c.old) × (3 * n ≤ length edges.old) }
    requires asked { MeshAsked (usables points.now) settings g level vertices.old faces.old (take n field.old)
        (take n a.old) (take n b.old) (take n c.old) (take (3 * n) edges.old) }
    ensures field_kept { field.new ≡ field.old }
    ensures made { MeshMade (usables points.now) settings result
        vertices.old vertices.new
        faces.old faces.new
        (take n a.old) (take n a.new)
        (take n b.old) (take n b.new)
        (take n c.old) (take n c.new)
        (take (3 * n) edges.old) (take (3 * n) edges.new) }
    ensures beside { (drop n a.new ≡ drop n a.old)
        × (drop n b.new ≡ drop n b.old)
        × (drop n c.new ≡ drop n c.old)
        × (drop (3 * n) edges.new ≡ drop (3 * n) edges.old) }
{
    let e = 3 * n;
    make_mesh(
        points,
        settings,
        g,
        level,
        vertices,
        faces,
        &field[..n],
        &mut a[..n],
        &mut b[..n],
        &mut c[..n],
        &mut edges[..e],
    )
}

// The same at the fronts of the grids: the field stands in the first, and the edge table and the second to fourth grid are zero, as far as there are edges
// and nodes.
pub fn mesh_in_grids(
    points: &[f32],
    settings: Settings,
    g: Grid,
    level: f32,
    vertices: &mut [f32],
    faces: &mut [u32],
    grids: &mut Grids,
    edges: &mut [u32],
) -> MeshSize
    requires { GridsAsked (usables points.now) settings g level vertices.old faces.old grids.old edges.old }
    ensures same { SameGrids grids.old grids.new }
    ensures made { GridsMade (usables points.now) settings result
        vertices.old vertices.new
        faces.old faces.new
        grids.old grids.new
        edges.old edges.new }
{
    let n = settings::nodes(settings.depth);
    make_mesh_front(
        points, settings, g, level, n, vertices, faces, grids.s0, grids.s1, grids.s2, grids.s3,
        edges,
    )
}

// 6, "no face .. after trimming", or the answer with the box of the returned vertices.
#[tactic(auto, unfolding(crate::specs::Words::mesh_outcome))]
pub fn answer_or_refuse(
    usable: usize,
    level: f32,
    faces: usize,
    vertices: &[f32],
) -> Result<Answer, Refusal>
    ensures { result ≡ mesh_outcome usable level faces vertices.now }
{
    settings::mesh_verdict(faces)?;
    let reach = meshes::bounds(vertices);
    let low = reach.low;
    let high = reach.high;
    Ok(Answer {
        number: 0,
        usable,
        vertices: vertices.len() / 3,
        faces,
        level,
        low,
        high,
    })
}

// The same, told in the end: the refusal is an answer too, whose number 6 stands beside zeros.
pub fn make_answer(usable: usize, level: f32, faces: usize, vertices: &[f32]) -> Answer
    ensures { result ≡ trimmed_answer usable level faces vertices.now }
{
    Answer::told(answer_or_refuse(usable, level, faces, vertices))
}
