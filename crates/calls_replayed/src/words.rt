// The words of a call in the list, one after the other: what they say.
ghost use Rattle.std.specs.Prelude.{◌≤◌, length};
ghost use Rattle.replay.specs.Words.{EndOf};

use replay::Words;
use settings::{Settings, Trimming};

fn trimming(flag: u64, distance: f32) -> Trimming {
    if flag == 0 {
        return Trimming::Off;
    }
    Trimming::Within(distance)
}

// Depth and trimming's flag in decimal; smoothing, offset, distance, iterations and tolerance as patterns.
pub fn read_settings(words: &mut Words<'_>) -> Settings
    ensures shorter { length words.new ≤ length words.old }
    ensures rest { EndOf words.old words.new }
{
    let depth = words.decimal();
    let smoothing = words.hex32();
    let offset = words.hex32();
    let flag = words.decimal();
    let distance = words.hex32();
    let iterations = words.hex();
    let tolerance = words.hex();
    Settings {
        depth: (depth % 0x1_0000_0000) as u32,
        smoothing: arith::float32(smoothing),
        iso_offset: arith::float32(offset),
        trimming: trimming(flag, arith::float32(distance)),
        max_iterations: iterations as usize,
        tolerance: arith::float64(tolerance),
    }
}

// The seven grids, the edge table, the distances, the vertices and the faces.
pub fn read_lengths(words: &mut Words<'_>) -> [usize; 11]
    ensures shorter { length words.new ≤ length words.old }
    ensures rest { EndOf words.old words.new }
{
    let mut lengths = [0usize; 11];
    for length in lengths.iter_mut() {
        *length = words.decimal() as usize;
    }
    lengths
}

// As many patterns as `floats` has elements.
pub fn read_floats(words: &mut Words<'_>, floats: &mut [f32])
    ensures shorter { length words.new ≤ length words.old }
    ensures rest { EndOf words.old words.new }
{
    for float in floats.iter_mut() {
        *float = arith::float32(words.hex32());
    }
}
