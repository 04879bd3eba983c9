// The box of the vertices, which is part of the answer. The Rust has none.
ghost use Rattle.std.specs.Prelude.{◌≡◌};
ghost use Rattle.meshes.specs.BoxOfVertices.{lower, higher, reached_by, box_of};

use crate::VertexBox;
use crate::vertices::triple_at;

// x where it is strictly smaller.
fn lesser(m: f32, x: f32) -> f32
    ensures { result ≡ lower m x }
{
    if x < m { x } else { m }
}

// x where it is strictly larger.
fn larger(m: f32, x: f32) -> f32
    ensures { result ≡ higher m x }
{
    if x > m { x } else { m }
}

impl VertexBox {
    // The box with one vertex more.
    fn reach(self, p: [f32; 3]) -> VertexBox
        ensures { result ≡ reached_by self p }
    {
        VertexBox {
            low: [
                lesser(self.low[0], p[0]),
                lesser(self.low[1], p[1]),
                lesser(self.low[2], p[2]),
            ],
            high: [
                larger(self.high[0], p[0]),
                larger(self.high[1], p[1]),
                larger(self.high[2], p[2]),
            ],
        }
    }
}

// The box of the vertices, from vertex 0 on. Where there is none it is zeros, as in an answer of refusal.
pub fn bounds(vertices: &[f32]) -> VertexBox
    ensures { result ≡ box_of vertices.now }
{
    let count = vertices.len() / 3;
    if count == 0 {
        return VertexBox {
            low: [0.0, 0.0, 0.0],
            high: [0.0, 0.0, 0.0],
        };
    }
    let first = triple_at(vertices, 0);
    let mut b = VertexBox {
        low: first,
        high: first,
    };
    for v in 1..count {
        b = b.reach(triple_at(vertices, 3 * v));
    }
    b
}
