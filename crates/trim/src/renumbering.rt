// Kept vertices are renumbered at first use. The table has for each old vertex 0, where it is not used yet, and else one more than its new number.
ghost use Rattle.std.specs.Prelude.{◌≡◌, List, [], ◌∷◌, ℕ, ◌+◌, ◌-◌, ◌*◌, ◌^◌, ◌<◌, ◌≤◌, length, get_or, take};
ghost use Rattle.lists.specs.Lists.{zeros_u};
ghost use Rattle.closed.specs.Faces as Flat;
ghost use Rattle.closed.specs.Numbering.{note, grow};
ghost use Rattle.meshes.specs.FlatMesh.{Corners, face_count};
ghost use Rattle.trim.specs.Words.{Slots, Noted, Renumbered};

use grid::Vertex;
use meshes::{read_face, write_face};

// A vertex that is not noted yet takes the next number. How many there are then.
fn note_vertex(table: &mut [u32], seen: u32, v: Vertex) -> u32
    requires v_in_bounds { v.0 < length table.old }
    requires seen_bound { seen + 1 < 2 ^ 32 }
    ensures by_index { (s : List ℕ) → Slots s table.old seen → Slots (note s v.0) table.new result }
    ensures upper_bound { result ≤ seen + 1 }
{
    let at = v.number() as usize;
    if table[at] == 0 {
        table[at] = seen + 1;
        return seen + 1;
    }
    seen
}

// The same with the three vertices of a face, in order.
fn note_face(table: &mut [u32], seen: u32, face: [u32; 3]) -> u32
    requires corners { Corners (length table.old) face }
    requires seen_bound { seen + 3 < 2 ^ 32 }
    ensures by_index { (s : List ℕ) → Slots s table.old seen
        → Slots (grow s (get_or face 0 0 ∷ get_or face 1 0 ∷ get_or face 2 0 ∷ [])) table.new result }
    ensures upper_bound { result ≤ seen + 3 }
{
    let first = note_vertex(table, seen, Vertex::of(face[0]));
    let second = note_vertex(table, first, Vertex::of(face[1]));
    note_vertex(table, second, Vertex::of(face[2]))
}

// The new vertex of one that is noted.
fn new_vertex(table: &[u32], v: Vertex) -> Vertex
    requires v_in_bounds { v.0 < length table.now }
    requires bound { 1 ≤ get_or table.now v.0 0 }
    ensures { result.0 ≡ get_or table.now v.0 0 - 1 }
{
    let at = v.number() as usize;
    Vertex::of(table[at] - 1)
}

// A face over the new numbers.
fn renamed(table: &[u32], face: [u32; 3]) -> [u32; 3]
    requires corners { Corners (length table.now) face }
    requires noted { Noted table.now face }
    ensures { result ≡ (get_or table.now (get_or face 0 0) 0 - 1) ∷ (get_or table.now (get_or face 1 0) 0 - 1) ∷
        (get_or table.now (get_or face 2 0) 0 - 1) ∷ [] }
{
    [
        new_vertex(table, Vertex::of(face[0])).number(),
        new_vertex(table, Vertex::of(face[1])).number(),
        new_vertex(table, Vertex::of(face[2])).number(),
    ]
}

// Renumbers the first faces at first use, with a table of zeros. How many vertices they use.
pub fn number(faces: &mut [u32], count: usize, table: &mut [u32]) -> u32
    requires faces_len { (length faces.old ≡ 3 * face_count faces.old) × (length faces.old < 2 ^ 32) × (count ≤ face_count faces.old) }
    requires by_index { (k : ℕ) → k < 3 * count → get_or faces.old k 0 < length table.old }
    requires table_value { table.old ≡ zeros_u (length table.old) }
    ensures { Renumbered (take count (Flat.faces faces.old)) (take count (Flat.faces faces.new)) table.new result }
{
    let mut seen = 0u32;
    for t in 0..count {
        let face = read_face(faces, t);
        seen = note_face(table, seen, face);
        write_face(faces, t, renamed(table, face));
    }
    seen
}
