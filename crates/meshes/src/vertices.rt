// One vertex of a flat mesh: its place by value.
ghost use Rattle.std.specs.Prelude.{◌≡◌, [], ◌∷◌, ◌+◌, ◌<◌, length};
ghost use Rattle.lists.specs.Lists.{at};
ghost use Rattle.meshes.specs.FlatMesh.{vertex_count, vertex_at};

use grid::Vertex;

// The three numbers from place k of a slice on.
pub fn triple_at(numbers: &[f32], k: usize) -> [f32; 3]
    requires { k + 2 < length numbers.now }
    ensures { result ≡ at numbers.now k ∷ at numbers.now (k + 1) ∷ at numbers.now (k + 2) ∷ [] }
{
    [numbers[k], numbers[k + 1], numbers[k + 2]]
}

// The place of a vertex.
pub fn vertex_at(vertices: &[f32], v: Vertex) -> [f32; 3]
    requires { v.0 < vertex_count vertices.now }
    ensures { result ≡ vertex_at vertices.now v.0 }
{
    triple_at(vertices, 3 * v.number() as usize)
}
