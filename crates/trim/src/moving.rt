// The kept vertices' coordinates go to their new places, one axis at a time, by way of three lent slices of equal length that are taken as one: "V ≤ 3N".
ghost use Rattle.std.specs.Prelude.{◌≡◌, ℕ, ◌*◌, ◌<◌, ◌≤◌, List, length, get_or, set, take};
ghost use Rattle.lists.specs.Lists.{at};
ghost use Rattle.meshes.specs.FlatMesh.{vertex_count};
ghost use Rattle.closed.specs.Numbering.{NoRepeat};
ghost use Rattle.trim.specs.Trim.{places_of};
ghost use Rattle.trim.specs.Words.{Slots, whole, SameLines, EvenLines, carried, gathered, scattered, Lists};

use grid::Vertex;

// Three slices of equal length, taken as one. They are lent together and go back together.
#[derive(Drop)]
pub struct Lines<'a> {
    pub a: &'a mut [f32],
    pub b: &'a mut [f32],
    pub c: &'a mut [f32],
}

impl Lines<'_> {
    // Stores a coordinate of a vertex at its place.
    fn put(&mut self, vertex: Vertex, x: f32)
        requires even { EvenLines self.old }
        requires vertex_bound { vertex.0 < 3 * length self.old.a.now }
        ensures same { SameLines self.old self.new }
        ensures stored { whole self.new ≡ set (whole self.old) vertex.0 x }
    {
        let w = vertex.0 as usize;
        let n = self.a.len();
        if w < n {
            self.a[w] = x;
        } else if w - n < n {
            self.b[w - n] = x;
        } else {
            self.c[w - n - n] = x;
        }
    }

    // Reads the coordinate there.
    fn get(&self, vertex: Vertex) -> f32
        requires even { EvenLines self.now }
        requires vertex_bound { vertex.0 < 3 * length self.now.a.now }
        ensures { result ≡ at (whole self.now) vertex.0 }
    {
        let w = vertex.0 as usize;
        let n = self.a.len();
        if w < n {
            self.a[w]
        } else if w - n < n {
            self.b[w - n]
        } else {
            self.c[w - n - n]
        }
    }

    // A coordinate of an old vertex goes to the place of its new number, if its entry in the table names one.
    fn carry(&mut self, entry: u32, x: f32)
        requires even { EvenLines self.old }
        requires bound { entry ≤ 3 * length self.old.a.now }
        ensures same { SameLines self.old self.new }
        ensures carried { whole self.new ≡ carried (whole self.old) entry x }
    {
        if entry > 0 {
            self.put(Vertex::of(entry - 1), x);
        }
    }
}

// The same with all old vertices.
fn gather(table: &[u32], vertices: &[f32], lines: &mut Lines, axis: usize)
    requires { Lists table.now vertices.now lines.old axis }
    ensures same { SameLines lines.old lines.new }
    ensures gathered { whole lines.new ≡ gathered table.now vertices.now axis (whole lines.old) (vertex_count vertices.now) }
{
    for v in 0..vertices.len() / 3 {
        lines.carry(table[v], vertices[3 * v + axis]);
    }
}

// And back into the vertices, of which there are `used`.
fn scatter(vertices: &mut [f32], lines: &Lines, axis: usize, used: u32)
    requires even { EvenLines lines.now }
    requires axis_bound { (axis < 3) × (used ≤ vertex_count vertices.old) × (used ≤ 3 * length lines.now.a.now) }
    ensures { vertices.new ≡ scattered (whole lines.now) axis vertices.old used }
{
    for w in 0..used {
        vertices[3 * w as usize + axis] = lines.get(Vertex::of(w));
    }
}

// One axis of all vertices.
fn move_axis(table: &[u32], vertices: &mut [f32], lines: &mut Lines, axis: usize, used: u32)
    requires lists { Lists table.now vertices.old lines.old axis }
    requires used_bound { (used ≤ vertex_count vertices.old) × (used ≤ 3 * length lines.old.a.now) }
    ensures same { SameLines lines.old lines.new }
    ensures moved { vertices.new ≡ scattered (gathered table.now vertices.old axis (whole lines.old) (vertex_count vertices.old)) axis vertices.old used }
{
    gather(table, vertices, lines, axis);
    scatter(vertices, lines, axis, used);
}

// All three axes. The first `used` vertices are then those that the table names, in the order of their new numbers.
pub fn move_vertices(table: &[u32], vertices: &mut [f32], lines: &mut Lines, used: u32)
    requires even { EvenLines lines.old }
    requires used_bound { (used ≤ vertex_count vertices.old) × (used ≤ 3 * length lines.old.a.now) × (vertex_count vertices.old ≤ length table.now) }
    requires by_index { (v : ℕ) → v < vertex_count vertices.old → get_or table.now v 0 ≤ used }
    ensures same { SameLines lines.old lines.new }
    ensures places { (seen : List ℕ) → Slots seen table.now used → NoRepeat seen
        → ((w : ℕ) → w < length seen → get_or seen w 0 < vertex_count vertices.old)
        → take (3 * used) vertices.new ≡ places_of vertices.old seen }
{
    move_axis(table, vertices, lines, 0, used);
    move_axis(table, vertices, lines, 1, used);
    move_axis(table, vertices, lines, 2, used);
}
