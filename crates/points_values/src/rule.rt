// How the points of a case are made, from whole numbers alone, so that another program can make the same. Each number is the one before times 16807, or times
// 48271 where that is odd, modulo the prime 2^31 - 1. Point i starts from i+1; its numbers after six, seven and eight turns are those of its three axes.
ghost use Rattle.std.specs.Prelude.{◌<◌, ◌≤◌, length, ◌≡◌};

use points::Point;

// How the points stand, and which normals they have.
#[derive(Clone, Copy)]
pub enum Stand {
    // Coordinates m/256 - 128, m of 16 bits.
    Spread,
    // The same, points 2i and 2i+1 in one place.
    Doubled,
    // The same, each normal as short as a usable one may be.
    Short,
    // In a row along x, 1.8e19 apart: the square of that is a finite f32.
    Wide,
    // In a row along x, 2e19 apart: the square of that is infinite.
    Apart,
    // -0 and subnormal coordinates.
    Minute,
    // The largest f32, of either sign.
    Largest,
    // All in one place.
    Equal,
}

// How they stand, and how many of the points 3, 7, 11.. are spoilt.
#[derive(Clone, Copy)]
pub struct Case {
    pub stand: Stand,
    pub spoilt: usize,
}

// ---- whole numbers

// The next number.
fn turn(s: u64) -> u64
    requires { s < 2147483647 }
    ensures { result < 2147483647 }
{
    let factor = if s % 2 == 0 { 16807 } else { 48271 };
    s * factor % 2147483647
}

// The number that a point starts from.
fn start(stand: Stand, i: usize) -> u64
    requires { i < 65536 }
    ensures { result < 2147483647 }
{
    match stand {
        Stand::Doubled => (i / 2 + 1) as u64,
        _ => (i + 1) as u64,
    }
}

// The number after five turns.
fn seed(stand: Stand, i: usize) -> u64
    requires { i < 65536 }
    ensures { result < 2147483647 }
{
    turn(turn(turn(turn(turn(start(stand, i))))))
}

// A small whole number as an f32, exactly.
fn small(m: u64) -> f32
    requires { m < 65536 }
{
    arith::narrow(m as u32 as f64)
}

// ---- a usable point

// The coordinate of point i along an axis, s being the axis's number.
fn coordinate(stand: Stand, i: usize, axis: usize, s: u64) -> f32
    requires { i < 65536 }
{
    match stand {
        Stand::Spread | Stand::Doubled | Stand::Short => small(s % 65536) / 256.0 - 128.0,
        Stand::Wide => along_x(small(i as u64) * 18000000000000000000.0, axis),
        Stand::Apart => along_x(small(i as u64) * 20000000000000000000.0, axis),
        Stand::Minute => minute(s),
        Stand::Largest => largest(s),
        Stand::Equal => 1.5,
    }
}

// x along axis 0, else 0.
fn along_x(x: f32, axis: usize) -> f32 {
    if axis == 0 { x } else { 0.0 }
}

// -0 where 3 divides the number, else the subnormal of that significand.
fn minute(s: u64) -> f32 {
    if s % 3 == 0 {
        -0.0
    } else {
        arith::float32((s % 8388608) as u32)
    }
}

// The largest f32, negative where the number is odd.
fn largest(s: u64) -> f32 {
    let pattern = if s % 2 == 0 { 0x7F7F_FFFF } else { 0xFF7F_FFFF };
    arith::float32(pattern)
}

// A normal that is never too short: its first component is 1 at least. Or the shortest that is usable.
fn normal(stand: Stand, a: u64, b: u64, c: u64) -> [f32; 3] {
    match stand {
        Stand::Short => [0.0, arith::float32(0x2B8C_BCCC), 0.0],
        _ => [1.0 + small(a % 7), -small(b % 5), small(c % 3)],
    }
}

// Point i as it stands before any is spoilt.
fn good(stand: Stand, i: usize) -> Point
    requires { i < 65536 }
{
    let a = turn(seed(stand, i));
    let b = turn(a);
    let c = turn(b);
    Point {
        at: [
            coordinate(stand, i, 0, a),
            coordinate(stand, i, 1, b),
            coordinate(stand, i, 2, c),
        ],
        normal: normal(stand, a, b, c),
    }
}

// ---- an unusable one

// Kinds 0, 1 and 2 spoil the position.
fn spoilt_at(kind: usize, at: [f32; 3]) -> [f32; 3] {
    match kind {
        0 => [0.0 / 0.0, at[1], at[2]],
        1 => [at[0], 1.0 / 0.0, at[2]],
        2 => [at[0], at[1], -1.0 / 0.0],
        _ => at,
    }
}

// Kinds 3 to 7 spoil the normal: zero, NaN, a length that overflows, one step short of usable, a length whose square is subnormal.
fn spoilt_normal(kind: usize, normal: [f32; 3]) -> [f32; 3] {
    match kind {
        3 => [0.0, -0.0, 0.0],
        4 => [normal[0], 0.0 / 0.0, normal[2]],
        5 => [normal[0], normal[1], 100000000000000000000.0],
        6 => [0.0, arith::float32(0x2B8C_BCCB), 0.0],
        7 => [0.00000000000000000001, 0.00000000000000000001, 0.0],
        _ => normal,
    }
}

// The kinds come in turn; short normals are all spoilt by a step.
fn kind_of(stand: Stand, i: usize) -> usize {
    match stand {
        Stand::Short => 6,
        _ => i / 4 % 8,
    }
}

// The point spoilt in one way of the eight.
fn spoil(p: Point, kind: usize) -> Point {
    let at = p.at;
    let normal = p.normal;
    Point {
        at: spoilt_at(kind, at),
        normal: spoilt_normal(kind, normal),
    }
}

// ---- all points of a case

// Point i of a case: spoilt if it is one of 3, 7, 11.. and its turn comes.
fn made(case: Case, i: usize) -> Point
    requires { i < 65536 }
{
    let stand = case.stand;
    let p = good(stand, i);
    if i % 4 == 3 && i / 4 < case.spoilt {
        spoil(p, kind_of(stand, i))
    } else {
        p
    }
}

// Number n of the flat slice: six for each point.
fn number(case: Case, n: usize) -> f32
    requires { n < 65536 }
{
    let p = made(case, n / 6);
    let at = p.at;
    let normal = p.normal;
    let k = n % 6;
    if k < 3 { at[k] } else { normal[k - 3] }
}

// As many points as there is room for.
pub fn fill(points: &mut [f32], case: Case)
    requires { length points.old ≤ 13824 }
    ensures { length points.new ≡ length points.old }
{
    for (n, x) in points.iter_mut().enumerate() {
        *x = number(case, n);
    }
}
