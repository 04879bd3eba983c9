// A cube's corners and edges, CORNERS and EDGES of `extract_shared`, each behind one named function.
ghost use Rattle.std.specs.Prelude.{◌≡◌, ◌<◌};
ghost use Rattle.closed.specs.Table.{corner_at, ends_of, cube_axis, low_of};
ghost use Rattle.cubes.specs.Words.{pair_of, place_of};

const CORNERS: [[usize; 3]; 8] = [
    [0, 0, 0],
    [1, 0, 0],
    [1, 1, 0],
    [0, 1, 0],
    [0, 0, 1],
    [1, 0, 1],
    [1, 1, 1],
    [0, 1, 1],
];

const EDGES: [[usize; 2]; 12] = [
    [0, 1],
    [1, 2],
    [2, 3],
    [3, 0],
    [4, 5],
    [5, 6],
    [6, 7],
    [7, 4],
    [0, 4],
    [1, 5],
    [2, 6],
    [3, 7],
];

// Where corner c lies from corner 0.
pub fn corner(c: usize) -> [usize; 3]
    requires { c < 8 }
    ensures { place_of result ≡ corner_at c }
{
    CORNERS[c]
}

// The two corners that edge e joins.
fn ends(e: usize) -> [usize; 2]
    requires { e < 12 }
    ensures { pair_of result ≡ ends_of e }
{
    EDGES[e]
}

// The axis of edge e: the first along which its ends lie apart.
pub fn axis_of(e: usize) -> usize
    requires { e < 12 }
    ensures { result ≡ cube_axis e }
{
    let ab = ends(e);
    let a = corner(ab[0]);
    let b = corner(ab[1]);
    if a[0] != b[0] {
        return 0;
    }
    if a[1] != b[1] {
        return 1;
    }
    2
}

// The lower end of edge e.
pub fn low_of(e: usize) -> usize
    requires { e < 12 }
    ensures { result ≡ low_of e }
{
    let ab = ends(e);
    let a = corner(ab[0]);
    let b = corner(ab[1]);
    let axis = axis_of(e);
    if a[axis] < b[axis] {
        return ab[0];
    }
    ab[1]
}
