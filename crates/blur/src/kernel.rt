// The blur's width and its weights, one for each offset; in the Rust they stand in `vector_field` and `blur_axis`.
ghost use Rattle.std.specs.Prelude.{◌≡◌, ◌≤◌, take};
ghost use Rattle.blur.specs.Blur.{sigma_of, radius_of, weight_of, reach_of, offset_count};
ghost use Rattle.blur.specs.Words.{KernelOf};

// How far the blur reaches, and its weights from minus the radius to the radius; behind them the array holds +0.0, and is not read.
#[derive(Clone, Copy)]
pub struct Kernel {
    pub radius: usize,
    pub weights: [f32; 37],
}

// The size of the offset t - radius.
fn reach(radius: usize, t: usize) -> usize
    ensures { result ≡ reach_of radius t }
{
    if t < radius { radius - t } else { t - radius }
}

// The weight of the offset t - radius. Its size squared is a whole number, taken to f64.
fn weight(sigma: f64, radius: usize, t: usize) -> f32
    requires { (radius ≤ 18) × (t ≤ 36) }
    ensures { result ≡ weight_of sigma (reach_of radius t) }
{
    let d = reach(radius, t);
    arith::exp_neg((d * d) as f64 / (2.0 * sigma * sigma))
}

impl Kernel {
    // The largest blur, in steps of the grid.
    pub const MAX_SIGMA: f64 = 6.0;

    // smoothing·spacing/h, clamped. A NaN stays one.
    pub fn sigma(smoothing: f32, spacing: f64, step: f64) -> f64
        ensures { result ≡ sigma_of smoothing spacing step }
    {
        arith::clamp(
            arith::widen(smoothing) * spacing / step,
            0.5,
            Kernel::MAX_SIGMA,
        )
    }

    // ceiling(3·sigma), 0 for a NaN.
    pub fn radius_of(sigma: f64) -> usize
        ensures { result ≡ radius_of sigma }
    {
        arith::to_whole(arith::ceiling(3.0 * sigma)) as usize
    }

    // The weights of every offset, for a sigma that has a radius of at most 18.
    pub fn new(sigma: f64) -> Kernel
        requires { radius_of sigma ≤ 18 }
        ensures { KernelOf sigma result }
    {
        let radius = Kernel::radius_of(sigma);
        // in place: an array that is moved into the struct costs a call of `memcpy`
        let mut kernel = Kernel {
            radius,
            weights: [0.0; 37],
        };
        for t in 0..radius + radius + 1 {
            kernel.weights[t] = weight(sigma, radius, t);
        }
        kernel
    }

    // The weights of its offsets, without what stands behind them.
    pub fn weights(&self) -> &[f32]
        requires { self.now.radius ≤ 18 }
        ensures { result.now ≡ take (offset_count self.now.radius) self.now.weights }
    {
        let count = self.radius + self.radius + 1;
        &self.weights[..count]
    }
}
