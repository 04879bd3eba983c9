// Document 01, "What crosses the counter" and "Numbers of refusal": what a caller gives beside the points and gets beside the mesh. Beside `PoissonConfig`
// and the errors of the Rust's poisson.rs, whose strings are numbers here. `checks` says who is refused; the refusals and their numbers are in `answers`.
#![tactic(auto)]

mod checks;

ghost use Rattle.std.specs.Prelude.{◌≡◌};
ghost use Rattle.settings.specs.Settings.{defaults};

pub use checks::{early, extent_verdict, mesh_verdict, nodes, room_verdict, usable_verdict};

// "Trimming is either off or within a distance." The Rust has an `Option<f32>`; here the two cases have the names of the rule.
#[derive(Clone, Copy)]
pub enum Trimming {
    Off,
    Within(f32),
}

// The settings record holds this choice whole.
#[derive(Clone, Copy)]
pub struct Settings {
    pub depth: u32,
    pub smoothing: f32,
    pub iso_offset: f32,
    pub trimming: Trimming,
    pub max_iterations: usize,
    pub tolerance: f64,
}

impl Settings {
    // The defaults, built anew at each call. The Rust's `Default for PoissonConfig`.
    pub fn new() -> Settings
        ensures { result ≡ defaults }
    {
        Settings {
            depth: 7,
            smoothing: 1.0,
            iso_offset: 0.0,
            trimming: Trimming::Off,
            max_iterations: 1000,
            tolerance: 1e-4,
        }
    }
}

// How long each lent slice is: the two result slices, the seven scratch slices over nodes, the one over edges and the one over given points.
#[derive(Clone, Copy)]
pub struct Lengths {
    pub vertices: usize,
    pub faces: usize,
    pub grids: [usize; 7],
    pub edges: usize,
    pub distances: usize,
}
