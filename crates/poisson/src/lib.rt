// Document 01, the whole call, beside `poisson_reconstruction` and `poisson_reconstruction_default` of the Rust's poisson.rs: the checks in their order, the
// stages, and one ending that clears what is unused. "For every bit pattern of points and settings the call ends and stays inside the slices it was lent.
// The caller checks nothing first": nothing is required. The crate `field_call` has the call that stops at the level.
#![tactic(auto)]

ghost use Rattle.std.specs.Prelude.{◌≡◌, ◌*◌, ◌^◌, ◌<◌, ◌≤◌, take, length};
ghost use Rattle.grid.specs.Grid.{Sides, all_nodes, lattice_of};
ghost use Rattle.numbering.specs.Words.{Counted};
ghost use Rattle.points.specs.Points.{usables};
ghost use Rattle.settings.specs.Settings.{defaults};
ghost use Rattle.answers.specs.Answers.{◌then◌, told};
ghost use Rattle.settings.specs.Refusals.{early_verdict, usable_verdict, extent_verdict, room_verdict, mesh_verdict};
ghost use Rattle.ending.specs.Slices.{slices_of, SameGrids, SameLengths};
ghost use Rattle.scan.specs.Reconstruction.{lengths_of, extent_for, late_verdict, results_under, reconstructed};
ghost use Rattle.scan.specs.Words.{Lent};
ghost use Rattle.poisson.specs.Outcome.{Done};
ghost use Rattle.poisson.specs.Words.{Shown};

use answers::{Answer, Refusal};
use ending::Grids;
pub use field_call::poisson_field;
use grid::Grid;
use meshes::MeshSize;
use points::Bounds;
use settings::{Lengths, Settings};

// The checks before any slice is touched, in 01's order. 7: "point slice not a multiple of six, or over 1,048,576 points". 1: "no points". 2: "depth below 3
// or above 8". 3: "smoothing NaN, zero or negative". 8: "a scratch slice is shorter than stated". Then 4 and 5, of the points.
fn check(points: &[f32], settings: Settings, lengths: Lengths) -> Result<(), Refusal>
    ensures { result ≡ early_verdict points.now settings lengths
        then usable_verdict (length (usables points.now))
        then extent_verdict (extent_for (usables points.now)) }
{
    settings::early(points, settings, lengths)?;
    scan::check_points(points)
}

// The checks of the untrimmed mesh, once V and F are counted. 9: "vertex slice shorter than 3V". 10: "face slice shorter than 3F". 6: "no face, before ..
// trimming".
fn check_mesh(counts: MeshSize, lengths: Lengths) -> Result<(), Refusal>
    requires { (counts.vertices < 1000000000) × (counts.faces < 1000000000) }
    ensures { result ≡ room_verdict counts.vertices counts.faces lengths then mesh_verdict counts.faces }
{
    settings::room_verdict(counts.vertices, counts.faces, lengths)?;
    settings::mesh_verdict(counts.faces)
}

// V and F of the field at the front of the first grid; its crossed edges are numbered at the front of the edge table.
fn count(g: Grid, level: f32, grids: &Grids, edges: &mut [u32]) -> MeshSize
    requires sides { Sides g.nodes }
    requires room { (all_nodes g ≤ length grids.now.s0.now) × (3 * all_nodes g ≤ length edges.old) }
    ensures counted { Counted (take (all_nodes g) grids.now.s0.now) (take (3 * all_nodes g) edges.new) (lattice_of g) level result }
    ensures len { length edges.new ≡ length edges.old }
{
    let n = g.len();
    let e = 3 * n;
    extract::number_edges(&grids.s0[..n], g.lattice(), level, &mut edges[..e])
}

// The stages as the definition has them: grid, field and level, counts, mesh, answer.
fn reconstruct(
    points: &[f32],
    settings: Settings,
    lengths: Lengths,
    vertices: &mut [f32],
    faces: &mut [u32],
    grids: &mut Grids,
    edges: &mut [u32],
    distances: &mut [f32],
) -> Result<Answer, Refusal>
    requires lent { Lent points.now settings grids.old distances.old }
    requires edges_len { 3 * 8 ^ settings.depth ≤ length edges.old }
    requires lengths_are { (lengths.vertices ≡ length vertices.old) × (lengths.faces ≡ length faces.old) }
    ensures same { SameGrids grids.old grids.new × SameLengths grids.old grids.new }
    ensures shown { Shown (results_under (late_verdict (usables points.now) settings lengths) (usables points.now) settings)
        (told result) vertices.new faces.new }
{
    let bounds = Bounds::of(points);
    let g = scan::make_grid(bounds, settings);
    let level = scan::field_and_level(points, settings, bounds, g, grids, distances);
    let counts = count(g, level, grids, edges);
    check_mesh(counts, lengths)?;
    let v = 3 * counts.vertices;
    let w = 3 * counts.faces;
    let size = scan::mesh_in_grids(
        points,
        settings,
        g,
        level,
        &mut vertices[..v],
        &mut faces[..w],
        grids,
        edges,
    );
    let k = 3 * size.vertices;
    scan::answer_or_refuse(
        points::usable_count(points),
        level,
        size.faces,
        &vertices[..k],
    )
}

// A refusal of the checks, or the stages. A refusal leaves the slices as it found them, or as the stages left them.
fn refuse_or_reconstruct(
    points: &[f32],
    settings: Settings,
    vertices: &mut [f32],
    faces: &mut [u32],
    grids: &mut Grids,
    edges: &mut [u32],
    distances: &mut [f32],
) -> Result<Answer, Refusal>
    ensures same { SameGrids grids.old grids.new × SameLengths grids.old grids.new }
    ensures shown { Shown
        (reconstructed points.now settings (lengths_of (slices_of vertices.old faces.old grids.old edges.old distances.old)))
        (told result) vertices.new faces.new }
{
    let lengths = scan::lengths_of(vertices, faces, grids, edges, distances);
    check(points, settings, lengths)?;
    reconstruct(
        points, settings, lengths, vertices, faces, grids, edges, distances,
    )
}

// The whole call: an answer, the mesh at the front of the two result slices, and zeros everywhere else.
pub fn poisson_reconstruction(
    points: &[f32],
    settings: Settings,
    vertices: &mut [f32],
    faces: &mut [u32],
    grids: &mut Grids,
    edges: &mut [u32],
    distances: &mut [f32],
) -> Answer
    ensures same { SameGrids grids.old grids.new }
    ensures done { Done (reconstructed points.now settings) result
        (slices_of vertices.old faces.old grids.old edges.old distances.old)
        (slices_of vertices.new faces.new grids.new edges.new distances.new) }
{
    let answer = Answer::told(refuse_or_reconstruct(
        points, settings, vertices, faces, grids, edges, distances,
    ));
    let v = 3 * answer.vertices;
    let w = 3 * answer.faces;
    ending::tidy(v, w, vertices, faces, grids, edges, distances);
    answer
}

// The same with the default settings.
pub fn poisson_reconstruction_default(
    points: &[f32],
    vertices: &mut [f32],
    faces: &mut [u32],
    grids: &mut Grids,
    edges: &mut [u32],
    distances: &mut [f32],
) -> Answer
    ensures same { SameGrids grids.old grids.new }
    ensures done { Done (reconstructed points.now defaults) result
        (slices_of vertices.old faces.old grids.old edges.old distances.old)
        (slices_of vertices.new faces.new grids.new edges.new distances.new) }
{
    poisson_reconstruction(
        points,
        Settings::new(),
        vertices,
        faces,
        grids,
        edges,
        distances,
    )
}
