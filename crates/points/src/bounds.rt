// Document 01, "Box": low and high of the usable points, the largest extent, and the cube round them, in f64.
ghost use Rattle.std.specs.Prelude.{◌≡◌};
ghost use Rattle.points.specs.Points.{usables};
ghost use Rattle.points.specs.Box.{reached, bounds_of, extent_of, side_of, origin_of};

use crate::point::Point;

// A box, from low to high.
#[derive(Clone, Copy)]
pub struct Bounds {
    pub lo: [f64; 3],
    pub hi: [f64; 3],
}

impl Bounds {
    // The part of the extent that the cube stands out by on each side, so that the surface stays inside.
    pub const PADDING: f64 = 0.1;

    // The box with one point more. Of two zeros the first stays.
    fn reach(self, p: Point) -> Bounds
        ensures { result ≡ reached self p }
    {
        let at = p.place();
        Bounds {
            lo: [
                arith::least(self.lo[0], at[0]),
                arith::least(self.lo[1], at[1]),
                arith::least(self.lo[2], at[2]),
            ],
            hi: [
                arith::largest(self.hi[0], at[0]),
                arith::largest(self.hi[1], at[1]),
                arith::largest(self.hi[2], at[2]),
            ],
        }
    }

    // The box of the usable points. By an index, as `usable_count` is, and for the same reason.
    pub fn of(points: &[f32]) -> Bounds
        ensures { result ≡ bounds_of (usables points.now) }
    {
        let far = 1.0 / 0.0;
        let mut b = Bounds {
            lo: [far, far, far],
            hi: [-far, -far, -far],
        };
        for i in 0..Point::given(points) {
            let p = Point::read(points, i);
            if p.usable() {
                b = b.reach(p);
            }
        }
        b
    }

    // The largest extent.
    pub fn extent(self) -> f64
        ensures { result ≡ extent_of self }
    {
        let x = arith::largest(0.0, self.hi[0] - self.lo[0]);
        let y = arith::largest(x, self.hi[1] - self.lo[1]);
        arith::largest(y, self.hi[2] - self.lo[2])
    }

    // The cube's side, the extent and its padding at both ends.
    pub fn side(self) -> f64
        ensures { result ≡ side_of self }
    {
        self.extent() * (1.0 + 2.0 * Bounds::PADDING)
    }

    // The cube's low corner: half a side below the middle of the box.
    pub fn origin(self) -> [f64; 3]
        ensures { result ≡ origin_of self }
    {
        let half = self.side() / 2.0;
        [
            (self.lo[0] + self.hi[0]) / 2.0 - half,
            (self.lo[1] + self.hi[1]) / 2.0 - half,
            (self.lo[2] + self.hi[2]) / 2.0 - half,
        ]
    }
}
