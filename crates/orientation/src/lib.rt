// Document 01, "Box, level, orientation, trim": the orientation. The faces look where the field grows, as the points' normals do. Beside `orient` and
// `face_normal` of the Rust's poisson.rs. A face's centre, which the trim uses too, and its normal are in `triangle`.
#![tactic(auto)]

mod triangle;

ghost use Rattle.std.specs.Prelude.{◌≡◌, map, ◌*◌, ◌<◌, length};
ghost use Rattle.closed.specs.Faces as Flat;
ghost use Rattle.grid.specs.Grid.{Sides, all_nodes};
ghost use Rattle.meshes.specs.FlatMesh.{vertex_count, face_count, Meshed, Corners};
ghost use Rattle.orientation.specs.Orientation.{gain_at, sign_at, agreement_of, oriented_faces};

use grid::Grid;
use meshes::{read_face, write_face};
pub use triangle::centre;
use triangle::normal;

// What the field gains along an axis, half a step to either side of a place.
fn gain(g: Grid, values: &[f32], p: [f64; 3], axis: usize) -> f64
    requires sides { Sides g.nodes }
    requires values_len { length values.now ≡ all_nodes g }
    requires axis_bound { axis < 3 }
    ensures { result ≡ gain_at g values.now p axis }
{
    let half = g.step * 0.5;
    let mut hi = p;
    hi[axis] = p[axis] + half;
    let mut lo = p;
    lo[axis] = p[axis] - half;
    g.sample(values, hi) - g.sample(values, lo)
}

// The sign of normal · gradient at a face's centre, in f64.
fn sign_at(g: Grid, values: &[f32], vertices: &[f32], face: [u32; 3]) -> f64
    requires sides { Sides g.nodes }
    requires values_len { length values.now ≡ all_nodes g }
    requires corners { Corners (vertex_count vertices.now) face }
    ensures { result ≡ sign_at g values.now vertices.now (Flat.face_of face) }
{
    let n = normal(vertices, face);
    let c = centre(vertices, face);
    let p = [arith::widen(c[0]), arith::widen(c[1]), arith::widen(c[2])];
    let x = arith::widen(n[0]) * gain(g, values, p, 0);
    let y = arith::widen(n[1]) * gain(g, values, p, 1);
    let z = arith::widen(n[2]) * gain(g, values, p, 2);
    arith::sign(x + y + z)
}

// The sum of the signs of the faces 0, s, 2s.., from -0.0: about five hundred of them are asked.
fn agreement(g: Grid, values: &[f32], vertices: &[f32], faces: &[u32]) -> f64
    requires sides { Sides g.nodes }
    requires values_len { length values.now ≡ all_nodes g }
    requires meshed { Meshed vertices.now faces.now }
    ensures { result ≡ agreement_of g values.now vertices.now (Flat.faces faces.now) }
{
    let count = faces.len() / 3;
    let s = lists::stride_for(500, count);
    let mut sum = -0.0;
    for t in (0..count).step_by(s) {
        let face = read_face(faces, t);
        sum = sum + sign_at(g, values, vertices, face);
    }
    sum
}

// Corners 1 and 2 of all faces change places.
fn turn_all(faces: &mut [u32])
    requires { length faces.old ≡ 3 * face_count faces.old }
    ensures { faces.new ≡ Flat.corners (map Flat.turn (Flat.faces faces.old)) }
{
    for t in 0..faces.len() / 3 {
        let face = read_face(faces, t);
        write_face(faces, t, closed::turned(face));
    }
}

// Makes the faces look where the field grows: a sum below zero turns them all. A NaN sum is not below, and turns nothing.
pub fn orient(g: Grid, values: &[f32], vertices: &[f32], faces: &mut [u32])
    requires sides { Sides g.nodes }
    requires values_len { length values.now ≡ all_nodes g }
    requires meshed { Meshed vertices.now faces.old }
    ensures { faces.new ≡ Flat.corners (oriented_faces g values.now vertices.now (Flat.faces faces.old)) }
{
    if agreement(g, values, vertices, faces) < 0.0 {
        turn_all(faces);
    }
}
