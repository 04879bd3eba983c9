// Document 01, "The preview program": reads a sheet from standard input and writes the mesh, or why there is none. Each line ends in a newline.
#![tactic(auto)]

ghost use Rattle.std.specs.Prelude.{◌≡◌, ◌<◌, ◌≤◌};
ghost use Rattle.sheet.specs.Laws.SheetRoom.{Roomy};
ghost use Rattle.preview.specs.Preview.{hex_digit, in_hex, Previewed};

use answers::Answer;
use ending::Grids;
use points::Point;
use settings::Settings;
use sheet::Header;
use std::io;

// A sheet is at most 24 + 24·256 = 6,168 bytes: one more is read, so that a longer one is seen to be.
fn main(rt: HostRuntime) -> io::Result<()> {
    let mut input = [0u8; 6169];
    let n = input::read_full(&rt, &mut input)?;
    show(&rt, &input[..n])
}

// `sheet` comes before `preview only`, and that before any refusal.
fn show(rt: &impl Print, bytes: &[u8]) -> io::Result<()> {
    match sheet::parse(bytes) {
        Ok(header) => draw(rt, bytes, header),
        Err(error) => println!(rt; "{error}"),
    }
}

// Up to 256 points of six numbers.
fn draw(rt: &impl Print, bytes: &[u8], header: Header) -> io::Result<()>
    requires { Roomy bytes.now header }
{
    let start = header.start;
    let settings = header.settings;
    let n = Point::NUMBERS * header.count;
    let mut points = [0.0f32; 1536];
    sheet::read_floats(bytes, start, &mut points[..n]);
    mesh(rt, &points[..n], settings)
}

// Room for any mesh of depth 3: 512 nodes, 343 cells of at most 5 faces, 1,344 edges of at most one vertex. `tell` asks for the proof.
fn mesh(rt: &impl Print, points: &[f32], settings: Settings) -> io::Result<()>
    requires { Previewed points.now settings }
{
    let mut vertices = [0.0f32; 4032];
    let mut faces = [0u32; 5145];
    let mut grids = Grids {
        s0: &mut [0.0f32; 512],
        s1: &mut [0.0f32; 512],
        s2: &mut [0.0f32; 512],
        s3: &mut [0.0f32; 512],
        s4: &mut [0.0f32; 512],
        s5: &mut [0.0f32; 512],
        s6: &mut [0.0f32; 512],
    };
    let mut edges = [0u32; 1536];
    let mut distances = [0.0f32; 256];
    let answer = poisson::poisson_reconstruction(
        points,
        settings,
        &mut vertices,
        &mut faces,
        &mut grids,
        &mut edges,
        &mut distances,
    );
    tell(rt, answer, &vertices, &faces)
}

// `refused N`, or `mesh V F`, V lines and F lines. No slice is ever too short: 7 to 10 are not told.
fn tell(rt: &impl Print, answer: Answer, vertices: &[f32], faces: &[u32]) -> io::Result<()>
    requires { answer.number ≤ 6 }
{
    if answer.number != 0 {
        return println!(rt; "refused {}", answer.number);
    }
    println!(rt; "mesh {} {}", answer.vertices, answer.faces)?;
    tell_lines(rt, vertices, answer.vertices)?;
    tell_lines(rt, faces, answer.faces)
}

// A number of the mesh as it is printed: an eight-digit pattern, or in decimal.
trait Told: Copy {
    fn tell(self, rt: &impl Print) -> io::Result<()>;
}

impl Told for f32 {
    fn tell(self, rt: &impl Print) -> io::Result<()> {
        rt.write_all(&hex(arith::pattern32(self)))
    }
}

impl Told for u32 {
    fn tell(self, rt: &impl Print) -> io::Result<()> {
        print!(rt; "{self}")
    }
}

// Three numbers, single spaces between.
fn tell_line<T: Told>(rt: &impl Print, a: T, b: T, c: T) -> io::Result<()> {
    a.tell(rt)?;
    print!(rt; " ")?;
    b.tell(rt)?;
    print!(rt; " ")?;
    c.tell(rt)?;
    println!(rt;)
}

// A line for each of the first `count` vertices, or faces.
fn tell_lines<T: Told>(rt: &impl Print, numbers: &[T], count: usize) -> io::Result<()> {
    for three in numbers.chunks_exact(3).take(count) {
        if let [a, b, c] = three {
            tell_line(rt, *a, *b, *c)?;
        }
    }
    Ok(())
}

// Eight upper-case digits, most significant first.
fn hex(n: u32) -> [u8; 8]
    ensures { result ≡ in_hex 8 n }
{
    [
        digit(n / 0x1000_0000 % 16),
        digit(n / 0x100_0000 % 16),
        digit(n / 0x10_0000 % 16),
        digit(n / 0x1_0000 % 16),
        digit(n / 0x1000 % 16),
        digit(n / 0x100 % 16),
        digit(n / 0x10 % 16),
        digit(n % 16),
    ]
}

#[tactic(auto, unfolding(crate::specs::Preview::hex_digit))]
fn digit(d: u32) -> u8
    requires { d < 16 }
    ensures { result ≡ hex_digit d }
{
    b"0123456789ABCDEF"[d as usize]
}
