// The library for programs in other languages (include/hoardmagpie.h): numbers, slices as pointer and length, and two small arrays; no struct and no enum
// crosses. Each exported function calls the one of the crate `poisson` and tells its answer; nothing else is done here, and nothing is required.
#![tactic(auto)]

ghost use Rattle.std.specs.Prelude.{◌≡◌};
ghost use Rattle.settings.specs.Settings.{defaults};
ghost use Rattle.scan.specs.Reconstruction.{reconstructed};
ghost use Rattle.scan.specs.FieldAlone.{field_results};
ghost use Rattle.capi.specs.Flat.{trimming_from, settings_from, counts_of, values_of, Told, FieldTold, default_words, default_values, default_tolerance};

use answers::Answer;
use ending::Grids;
use settings::{Settings, Trimming};

// 0 is off, all else is within the distance.
fn trimming_from(trimming: u32, distance: f32) -> Trimming
    ensures { result ≡ trimming_from trimming distance }
{
    if trimming == 0 {
        return Trimming::Off;
    }
    Trimming::Within(distance)
}

fn settings_from(
    depth: u32,
    smoothing: f32,
    offset: f32,
    trimming: u32,
    distance: f32,
    iterations: usize,
    tolerance: f64,
) -> Settings
    ensures { result ≡ settings_from depth smoothing offset trimming distance iterations tolerance }
{
    let choice = trimming_from(trimming, distance);
    Settings {
        depth,
        smoothing,
        iso_offset: offset,
        trimming: choice,
        max_iterations: iterations,
        tolerance,
    }
}

// Usable points, V, F, then zeros.
fn put_counts(answer: Answer, counts: &mut [u64; 8])
    ensures { counts.new ≡ counts_of answer }
{
    let told = [
        answer.usable as u64,
        answer.vertices as u64,
        answer.faces as u64,
        0,
        0,
        0,
        0,
        0,
    ];
    *counts = told;
}

// Level, low x y z, high x y z, then zero.
fn put_values(answer: Answer, values: &mut [f32; 8])
    ensures { values.new ≡ values_of answer }
{
    let low = answer.low;
    let high = answer.high;
    let told = [
        answer.level,
        low[0],
        low[1],
        low[2],
        high[0],
        high[1],
        high[2],
        0.0,
    ];
    *values = told;
}

// The whole call. The answer's number comes back.
#[unsafe(no_mangle)]
pub extern "C" fn poisson_reconstruct(
    points: &[f32],
    depth: u32,
    smoothing: f32,
    offset: f32,
    trimming: u32,
    distance: f32,
    iterations: usize,
    tolerance: f64,
    vertices: &mut [f32],
    faces: &mut [u32],
    s0: &mut [f32],
    s1: &mut [f32],
    s2: &mut [f32],
    s3: &mut [f32],
    s4: &mut [f32],
    s5: &mut [f32],
    s6: &mut [f32],
    edges: &mut [u32],
    distances: &mut [f32],
    counts: &mut [u64; 8],
    values: &mut [f32; 8],
) -> u32
    ensures { Told (reconstructed points.now (settings_from depth smoothing offset trimming distance iterations tolerance)) result
        counts.new values.new
        (record {
          vertices = vertices.old;
          faces = faces.old;
          scratch = record {
            s0 = s0.old;
            s1 = s1.old;
            s2 = s2.old;
            s3 = s3.old;
            s4 = s4.old;
            s5 = s5.old;
            s6 = s6.old;
            edges = edges.old;
            distances = distances.old;
          };
        })
        (record {
          vertices = vertices.new;
          faces = faces.new;
          scratch = record {
            s0 = s0.new;
            s1 = s1.new;
            s2 = s2.new;
            s3 = s3.new;
            s4 = s4.new;
            s5 = s5.new;
            s6 = s6.new;
            edges = edges.new;
            distances = distances.new;
          };
        }) }
{
    let settings = settings_from(
        depth, smoothing, offset, trimming, distance, iterations, tolerance,
    );
    let mut grids = Grids {
        s0,
        s1,
        s2,
        s3,
        s4,
        s5,
        s6,
    };
    let answer = poisson::poisson_reconstruction(
        points, settings, vertices, faces, &mut grids, edges, distances,
    );
    put_counts(answer, counts);
    put_values(answer, values);
    answer.number
}

// The same with the default settings.
#[unsafe(no_mangle)]
pub extern "C" fn poisson_reconstruct_default(
    points: &[f32],
    vertices: &mut [f32],
    faces: &mut [u32],
    s0: &mut [f32],
    s1: &mut [f32],
    s2: &mut [f32],
    s3: &mut [f32],
    s4: &mut [f32],
    s5: &mut [f32],
    s6: &mut [f32],
    edges: &mut [u32],
    distances: &mut [f32],
    counts: &mut [u64; 8],
    values: &mut [f32; 8],
) -> u32
    ensures { Told (reconstructed points.now defaults) result
        counts.new values.new
        (record {
          vertices = vertices.old;
          faces = faces.old;
          scratch = record {
            s0 = s0.old;
            s1 = s1.old;
            s2 = s2.old;
            s3 = s3.old;
            s4 = s4.old;
            s5 = s5.old;
            s6 = s6.old;
            edges = edges.old;
            distances = distances.old;
          };
        })
        (record {
          vertices = vertices.new;
          faces = faces.new;
          scratch = record {
            s0 = s0.new;
            s1 = s1.new;
            s2 = s2.new;
            s3 = s3.new;
            s4 = s4.new;
            s5 = s5.new;
            s6 = s6.new;
            edges = edges.new;
            distances = distances.new;
          };
        }) }
{
    let mut grids = Grids {
        s0,
        s1,
        s2,
        s3,
        s4,
        s5,
        s6,
    };
    let answer = poisson::poisson_reconstruction_default(
        points, vertices, faces, &mut grids, edges, distances,
    );
    put_counts(answer, counts);
    put_values(answer, values);
    answer.number
}

// The field and the level alone: of `counts` only the first, of `values` only the first can differ from zero.
#[unsafe(no_mangle)]
pub extern "C" fn poisson_field(
    points: &[f32],
    depth: u32,
    smoothing: f32,
    offset: f32,
    trimming: u32,
    distance: f32,
    iterations: usize,
    tolerance: f64,
    field: &mut [f32],
    s0: &mut [f32],
    s1: &mut [f32],
    s2: &mut [f32],
    s3: &mut [f32],
    s4: &mut [f32],
    s5: &mut [f32],
    s6: &mut [f32],
    edges: &mut [u32],
    distances: &mut [f32],
    counts: &mut [u64; 8],
    values: &mut [f32; 8],
) -> u32
    ensures { FieldTold (field_results points.now (settings_from depth smoothing offset trimming distance iterations tolerance)) result
        counts.new values.new
        (record {
          values = field.old;
          scratch = record {
            s0 = s0.old;
            s1 = s1.old;
            s2 = s2.old;
            s3 = s3.old;
            s4 = s4.old;
            s5 = s5.old;
            s6 = s6.old;
            edges = edges.old;
            distances = distances.old;
          };
        })
        (record {
          values = field.new;
          scratch = record {
            s0 = s0.new;
            s1 = s1.new;
            s2 = s2.new;
            s3 = s3.new;
            s4 = s4.new;
            s5 = s5.new;
            s6 = s6.new;
            edges = edges.new;
            distances = distances.new;
          };
        }) }
{
    let settings = settings_from(
        depth, smoothing, offset, trimming, distance, iterations, tolerance,
    );
    let mut grids = Grids {
        s0,
        s1,
        s2,
        s3,
        s4,
        s5,
        s6,
    };
    let solved = poisson::poisson_field(points, settings, field, &mut grids, edges, distances);
    put_counts(solved, counts);
    put_values(solved, values);
    solved.number
}

// The defaults, so that a host keeps no second list: depth, trimming flag, iterations; smoothing, offset, distance; tolerance.
#[unsafe(no_mangle)]
pub extern "C" fn poisson_defaults(
    words: &mut [u64; 8],
    values: &mut [f32; 8],
    tolerance: &mut [f64; 1],
)
    ensures { (words.new ≡ default_words) × (values.new ≡ default_values) × (tolerance.new ≡ default_tolerance) }
{
    let st = Settings::new();
    let told = [st.depth as u64, 0, st.max_iterations as u64, 0, 0, 0, 0, 0];
    *words = told;
    let floats = [st.smoothing, st.iso_offset, 0.0, 0.0, 0.0, 0.0, 0.0, 0.0];
    *values = floats;
    let last = [st.tolerance];
    *tolerance = last;
}
