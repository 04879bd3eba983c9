// A face's centre and normal. The face is its three vertex numbers by value.
ghost use Rattle.std.specs.Prelude.{◌≡◌};
ghost use Rattle.closed.specs.Faces.{face_of};
ghost use Rattle.meshes.specs.FlatMesh.{vertex_count, Corners};
ghost use Rattle.orientation.specs.Orientation.{minus, cross, centre_of, normal_of};

use grid::Vertex;
use meshes::vertex_at;

// The f32 centre: the corners' sum in their order, divided by 3.
pub fn centre(vertices: &[f32], face: [u32; 3]) -> [f32; 3]
    requires { Corners (vertex_count vertices.now) face }
    ensures { result ≡ centre_of vertices.now (face_of face) }
{
    let a = vertex_at(vertices, Vertex::of(face[0]));
    let b = vertex_at(vertices, Vertex::of(face[1]));
    let c = vertex_at(vertices, Vertex::of(face[2]));
    [
        (a[0] + b[0] + c[0]) / 3.0,
        (a[1] + b[1] + c[1]) / 3.0,
        (a[2] + b[2] + c[2]) / 3.0,
    ]
}

// The side from one corner to another.
fn from_to(p: [f32; 3], q: [f32; 3]) -> [f32; 3]
    ensures { result ≡ minus q p }
{
    [q[0] - p[0], q[1] - p[1], q[2] - p[2]]
}

// The cross product: y1·z2 - z1·y2, and the others in turn.
fn crossed(p: [f32; 3], q: [f32; 3]) -> [f32; 3]
    ensures { result ≡ cross p q }
{
    [
        p[1] * q[2] - p[2] * q[1],
        p[2] * q[0] - p[0] * q[2],
        p[0] * q[1] - p[1] * q[0],
    ]
}

// The f32 normal, by the right hand, as long as twice the face's area. The Rust's `face_normal`.
pub fn normal(vertices: &[f32], face: [u32; 3]) -> [f32; 3]
    requires { Corners (vertex_count vertices.now) face }
    ensures { result ≡ normal_of vertices.now (face_of face) }
{
    let a = vertex_at(vertices, Vertex::of(face[0]));
    let b = vertex_at(vertices, Vertex::of(face[1]));
    let c = vertex_at(vertices, Vertex::of(face[2]));
    crossed(from_to(a, b), from_to(a, c))
}
