// What is printed of an answer, in the words of oracle/cases. Every NaN prints as 7fc00000: which pattern is stored cannot be seen here.
use answers::Answer;
use std::io;

// ---- numbers

fn tell_corner(rt: &impl Print, name: &str, corner: [f32; 3]) -> io::Result<()> {
    let [x, y, z] = corner.map(|x| arith::pattern32(x));
    println!(rt; "{name} {x:08x} {y:08x} {z:08x}")
}

pub fn tell_count(rt: &impl Print, n: usize) -> io::Result<()> {
    print!(rt; " {n}")
}

pub fn tell_digest(rt: &impl Print, name: &str, digest: u64) -> io::Result<()> {
    println!(rt; "{name} {digest:016x}")
}

pub fn tell_field_answer(rt: &impl Print, answer: Answer) -> io::Result<()> {
    println!(rt; "field {}", answer.number)?;
    println!(rt; "field-usable {}", answer.usable)?;
    println!(rt; "field-level {:08x}", arith::pattern32(answer.level))
}

// The first `shown` values, eight a line.
pub fn tell_values(rt: &impl Print, values: &[f32], shown: usize) -> io::Result<()> {
    for (i, x) in values.iter().take(shown).enumerate() {
        print!(rt; " {:08x}", arith::pattern32(*x))?;
        if i % 8 == 7 {
            println!(rt;)?;
        }
    }
    Ok(())
}

pub fn tell_answer(rt: &impl Print, answer: Answer) -> io::Result<()> {
    println!(rt; "number {}", answer.number)?;
    println!(rt; "usable {}", answer.usable)?;
    println!(rt; "vertices {}", answer.vertices)?;
    println!(rt; "faces {}", answer.faces)?;
    println!(rt; "level {:08x}", arith::pattern32(answer.level))?;
    tell_corner(rt, "low", answer.low)?;
    tell_corner(rt, "high", answer.high)
}

// ---- what the slices hold

// 32 bits that tell a value whole.
pub trait Bits: Copy {
    fn bits(self) -> u32;
}

impl Bits for f32 {
    fn bits(self) -> u32 {
        arith::pattern32(self)
    }
}

impl Bits for u32 {
    fn bits(self) -> u32 {
        self
    }
}

// FNV-1a of 64 bits, over the bytes of a word, least significant first, after the hash h.
fn word(h: u64, w: u32) -> u64 {
    w.to_le_bytes().iter().fold(h, |h, b| (h ^ u64::from(*b)).wrapping_mul(0x100_0000_01B3))
}

// That hash of the first `used` elements.
pub fn digest<T: Bits>(s: &[T], used: usize) -> u64 {
    s.iter()
        .take(used)
        .fold(0xCBF2_9CE4_8422_2325, |h, x| word(h, x.bits()))
}

// How many are not zero from the element `from` on.
pub fn left<T: Bits>(s: &[T], from: usize) -> usize {
    s.iter().skip(from).filter(|x| x.bits() != 0).count()
}
