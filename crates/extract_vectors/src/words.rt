// The words of a grid in the list, one after the other: what each says.
ghost use Rattle.std.specs.Prelude.{◌≤◌, length};
ghost use Rattle.replay.specs.Words.{EndOf};

use grid::Lattice;
use replay::Words;

// Past a word that names what follows.
pub fn skip_word(words: &mut Words<'_>)
    ensures shorter { length words.new ≤ length words.old }
    ensures rest { EndOf words.old words.new }
{
    let _ = words.next();
}

// Three counts.
fn read_sides(words: &mut Words<'_>) -> [usize; 3]
    ensures shorter { length words.new ≤ length words.old }
    ensures rest { EndOf words.old words.new }
{
    let nx = words.decimal() as usize;
    let ny = words.decimal() as usize;
    let nz = words.decimal() as usize;
    [nx, ny, nz]
}

// A place.
fn read_origin(words: &mut Words<'_>) -> [f64; 3]
    ensures shorter { length words.new ≤ length words.old }
    ensures rest { EndOf words.old words.new }
{
    let x = arith::float64(words.hex());
    let y = arith::float64(words.hex());
    let z = arith::float64(words.hex());
    [x, y, z]
}

// A grid's first line, and the word `values` of its second.
#[derive(Clone, Copy)]
pub struct Header {
    pub lattice: Lattice,
    pub iso: f32,
}

// `nx ny nz origin X Y Z step H iso I values`
pub fn read_header(words: &mut Words<'_>) -> Header
    ensures shorter { length words.new ≤ length words.old }
    ensures rest { EndOf words.old words.new }
{
    let counts = read_sides(words);
    skip_word(words);
    let origin = read_origin(words);
    skip_word(words);
    let step = arith::float64(words.hex());
    skip_word(words);
    let iso = arith::float32(words.hex32());
    skip_word(words);
    Header {
        lattice: Lattice {
            counts,
            origin,
            step: [step, step, step],
        },
        iso,
    }
}

// One value a node, by node number.
pub fn read_values(words: &mut Words<'_>, values: &mut [f32])
    ensures shorter { length words.new ≤ length words.old }
    ensures rest { EndOf words.old words.new }
{
    for value in values.iter_mut() {
        *value = arith::float32(words.hex32());
    }
}
