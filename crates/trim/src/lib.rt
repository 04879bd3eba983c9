// Document 01, "Box, level, orientation, trim": the trim, after the turning. Beside `trim` of the Rust's poisson.rs, which makes new vectors; here the
// faces are moved forward where they stand (`keeping`), a lent table over the old vertices numbers them at first use (`renumbering`), and the coordinates
// move one axis at a time through three lent slices taken as one (`moving`).
#![tactic(auto)]

mod keeping;
mod moving;
mod renumbering;

ghost use Rattle.std.specs.Prelude.{◌≡◌, ◌^◌, ◌<◌, ◌≤◌, length};
ghost use Rattle.lists.specs.Lists.{zeros32, zeros_u};
ghost use Rattle.closed.specs.Faces as Flat;
ghost use Rattle.points.specs.Points.{usables};
ghost use Rattle.meshes.specs.FlatMesh.{vertex_count, Meshed};
ghost use Rattle.settings.specs.declared.Trimming.TheVariants.{Within};
ghost use Rattle.trim.specs.Trim.{near_faces, Trimmed, TrimRoom};
ghost use Rattle.trim.specs.Words.{Front, SameLines};

use meshes::MeshSize;
use moving::Lines;
use settings::Trimming;

// The faces near a usable point move to the front and are renumbered; the table has the new number of each vertex that they use.
fn keep_near(
    distance: f32,
    points: &[f32],
    vertices: &[f32],
    faces: &mut [u32],
    table: &mut [u32],
) -> MeshSize
    requires meshed { Meshed vertices.now faces.old }
    requires faces_len_bound { (length faces.old < 2 ^ 32) × (vertex_count vertices.now ≤ length table.old) }
    ensures { Front (near_faces (usables points.now) vertices.now distance (Flat.faces faces.old))
        faces.new table.new result }
{
    let kept = keeping::keep_faces(points, distance * distance, vertices, faces);
    lists::clear(table);
    let used = renumbering::number(faces, kept, table);
    MeshSize {
        vertices: used as usize,
        faces: kept,
    }
}

// The faces near a usable point, and the vertices that they use.
fn trim_within(
    distance: f32,
    points: &[f32],
    vertices: &mut [f32],
    faces: &mut [u32],
    table: &mut [u32],
    lines: &mut Lines,
) -> MeshSize
    requires meshed { Meshed vertices.old faces.old }
    requires trim_room { TrimRoom vertices.old faces.old table.old lines.old.a.now lines.old.b.now lines.old.c.now }
    ensures same { SameLines lines.old lines.new }
    ensures trimmed { Trimmed (Within distance) (usables points.now) vertices.old faces.old result vertices.new
        faces.new }
{
    let size = keep_near(distance, points, vertices, faces, table);
    let used = size.vertices;
    let kept = size.faces;
    moving::move_vertices(table, vertices, lines, used as u32);
    lists::clear_from(vertices, 3 * used);
    lists::clear_from(faces, 3 * kept);
    size
}

// The choice taken apart: off keeps every face and vertex as it is.
fn trim_as_chosen(
    trimming: Trimming,
    points: &[f32],
    vertices: &mut [f32],
    faces: &mut [u32],
    table: &mut [u32],
    lines: &mut Lines,
) -> MeshSize
    requires meshed { Meshed vertices.old faces.old }
    requires trim_room { TrimRoom vertices.old faces.old table.old lines.old.a.now lines.old.b.now lines.old.c.now }
    ensures same { SameLines lines.old lines.new }
    ensures trimmed { Trimmed trimming (usables points.now) vertices.old faces.old result vertices.new
        faces.new }
{
    match trimming {
        Trimming::Off => MeshSize {
            vertices: vertices.len() / 3,
            faces: faces.len() / 3,
        },
        Trimming::Within(distance) => {
            trim_within(distance, points, vertices, faces, table, lines)
        }
    }
}

// The mesh after trimming stands at the front of its slices, with zeros past it; the table and the three lent slices are zero.
pub fn trim(
    trimming: Trimming,
    points: &[f32],
    vertices: &mut [f32],
    faces: &mut [u32],
    table: &mut [u32],
    a: &mut [f32],
    b: &mut [f32],
    c: &mut [f32],
) -> MeshSize
    requires meshed { Meshed vertices.old faces.old }
    requires trim_room { TrimRoom vertices.old faces.old table.old a.old b.old c.old }
    ensures trimmed { Trimmed trimming (usables points.now) vertices.old faces.old result vertices.new
        faces.new }
    ensures table_after { table.new ≡ zeros_u (length table.old) }
    ensures a_after { a.new ≡ zeros32 (length a.old) }
    ensures b_after { b.new ≡ zeros32 (length b.old) }
    ensures c_after { c.new ≡ zeros32 (length c.old) }
{
    let mut lines = Lines { a, b, c };
    let size = trim_as_chosen(trimming, points, vertices, faces, table, &mut lines);
    lists::clear(table);
    lists::clear(lines.a);
    lists::clear(lines.b);
    lists::clear(lines.c);
    size
}
