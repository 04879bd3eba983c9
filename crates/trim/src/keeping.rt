// Which faces are kept: they are moved forward over those that are dropped.
ghost use Rattle.std.specs.Prelude.{◌≡◌, length, take};
ghost use Rattle.closed.specs.Faces as Flat;
ghost use Rattle.closed.specs.Lists.{keep};
ghost use Rattle.points.specs.Points.{usables};
ghost use Rattle.meshes.specs.FlatMesh.{Meshed, Corners, vertex_count};
ghost use Rattle.trim.specs.Trim.{near};

use meshes::{read_face, write_face};
use orientation::centre;

// Whether a face's centre, in the order after turning, has a squared distance of at most the limit to some usable point.
fn is_near(points: &[f32], limit: f32, vertices: &[f32], face: [u32; 3]) -> bool
    requires { Corners (vertex_count vertices.now) face }
    ensures { result ≡ near (usables points.now) vertices.now limit (Flat.face_of face) }
{
    search::within(points, centre(vertices, face), limit)
}

// Moves the faces that are near to the front, in their order. How many there are.
pub fn keep_faces(points: &[f32], limit: f32, vertices: &[f32], faces: &mut [u32]) -> usize
    requires { Meshed vertices.now faces.old }
    ensures value { result ≡ length (keep (near (usables points.now) vertices.now limit) (Flat.faces faces.old)) }
    ensures faces_after { take result (Flat.faces faces.new) ≡ keep (near (usables points.now) vertices.now limit)
        (Flat.faces faces.old) }
{
    let mut kept = 0usize;
    for t in 0..faces.len() / 3 {
        let face = read_face(faces, t);
        if is_near(points, limit, vertices, face) {
            write_face(faces, kept, face);
            kept += 1;
        }
    }
    kept
}
