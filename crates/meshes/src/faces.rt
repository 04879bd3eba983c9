// One face of a flat mesh: its three vertex numbers by value.
ghost use Rattle.std.specs.Prelude.{◌≡◌, ◌+◌, ◌*◌, ◌<◌, length};
ghost use Rattle.meshes.specs.FlatMesh.{corners_at, put_face};

// Face t, read whole.
pub fn read_face(faces: &[u32], t: usize) -> [u32; 3]
    requires { 3 * t + 2 < length faces.now }
    ensures { result ≡ corners_at faces.now t }
{
    let k = 3 * t;
    [faces[k], faces[k + 1], faces[k + 2]]
}

// And written back whole.
pub fn write_face(faces: &mut [u32], t: usize, face: [u32; 3])
    requires { 3 * t + 2 < length faces.old }
    ensures { faces.new ≡ put_face faces.old t face }
{
    let k = 3 * t;
    faces[k] = face[0];
    faces[k + 1] = face[1];
    faces[k + 2] = face[2];
}
