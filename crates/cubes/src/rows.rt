// A row of the lent table: how many triples it has, and each as it is emitted. -1 ends a row.
ghost use Rattle.std.specs.Prelude.{◌≡◌, ◌<◌, length, get_or};
ghost use Rattle.closed.specs.Faces.{face, face_of};
ghost use Rattle.closed.specs.Rows.{flat_table, row, entry, emitted};

// Entry t of row `case`.
fn row_entry(table: &[i8; 4096], case: usize, t: usize) -> i8
    requires { (table.now ≡ flat_table) × (case < 256) × (t < 16) }
    ensures { result ≡ entry case t }
{
    table[case * 16 + t]
}

// The same as a cube edge, before the row's end.
fn row_edge(table: &[i8; 4096], case: usize, t: usize) -> usize
    requires { (table.now ≡ flat_table) × (case < 256) × (t < length (row case)) }
    ensures { result ≡ get_or (row case) t 0 }
{
    row_entry(table, case, t) as usize
}

// How many faces the case emits, five at most.
pub fn row_faces(table: &[i8; 4096], case: usize) -> usize
    requires { (table.now ≡ flat_table) × (case < 256) }
    ensures { result ≡ length (emitted case) }
{
    for k in 0..5 {
        if row_entry(table, case, 3 * k) < 0 {
            return k;
        }
    }
    5
}

// Face k of them, over the cube's edges: a triple (a, b, c) is emitted (a, c, b).
pub fn row_face(table: &[i8; 4096], case: usize, k: usize) -> [usize; 3]
    requires { (table.now ≡ flat_table) × (case < 256) × (k < length (emitted case)) }
    ensures { face_of result ≡ get_or (emitted case) k (face 0 0 0) }
{
    let a = row_edge(table, case, 3 * k);
    let b = row_edge(table, case, 3 * k + 1);
    let c = row_edge(table, case, 3 * k + 2);
    [a, c, b]
}
