// Document 01, "The preview program": the sheet that it reads, "fields packed most significant first". The Rust has no such program.
// `bytes` reads numbers and floats off a sheet; the header and the points are read here.
#![tactic(auto)]

mod bytes;

ghost use Rattle.std.specs.Prelude.{Some, ◌≡◌, ◌+◌, ◌*◌, ◌<◌, ◌≤◌, length};
ghost use Rattle.sheet.specs.Sheet.{flag_of, trimming_of, header_of, sheet_of, said_of};

pub use bytes::read_floats;
use bytes::{read_f32, read_f64, read16};
use points::Point;
use settings::{Settings, Trimming};
use std::fmt;

// What stands before the points, how many there are, and where they start.
#[derive(Clone, Copy)]
pub struct Header {
    pub settings: Settings,
    pub count: usize,
    pub start: usize,
}

// Why the preview does not go on with a sheet.
#[derive(Clone, Copy, PartialEq, Eq, Debug)]
pub enum SheetError {
    // The wrong length, or too many points.
    Wrong,
    // A depth that the preview leaves to the library's other callers.
    Deep,
}

impl fmt::Display for SheetError {
    ghost output = { λ e. Some (said_of e) };

    fn fmt<W: fmt::Write>(&self, f: &mut fmt::Formatter<W>) -> fmt::Result {
        match self {
            SheetError::Wrong => write!(f, "sheet"),
            SheetError::Deep => write!(f, "preview only"),
        }
    }
}

// "f32 distance only if flagged."
fn read_trimming(sheet: &[u8], word: u16, flag: u16) -> Trimming
    requires { (flag ≡ flag_of word) × (14 ≤ length sheet.now) }
    ensures { result ≡ trimming_of sheet.now word }
{
    if flag == 0 {
        return Trimming::Off;
    }
    Trimming::Within(read_f32(sheet, 10))
}

// The header of a sheet whose first 16 bits are the word.
fn read_header(sheet: &[u8], word: u16) -> Header
    requires { 20 + 4 * flag_of word ≤ length sheet.now }
    ensures { result ≡ header_of sheet.now word }
{
    let flag = word / 2048 % 2;
    let more = 4 * usize::from(flag);
    let settings = Settings {
        depth: u32::from(word / 4096),
        smoothing: read_f32(sheet, 2),
        iso_offset: read_f32(sheet, 6),
        trimming: read_trimming(sheet, word, flag),
        max_iterations: usize::from(read16(sheet, 10 + more)),
        tolerance: read_f64(sheet, 12 + more),
    };
    Header {
        settings,
        count: usize::from(word % 2048),
        start: 20 + more,
    }
}

// "A short or overlong sheet, or a larger count" than 256 comes first; "a depth 4 to 8 .. after that check". Other depths go on: the library refuses them.
#[tactic(auto, unfolding(crate::specs::Sheet::sheet_of, crate::specs::Sheet::is_wrong))]
pub fn parse(sheet: &[u8]) -> Result<Header, SheetError>
    ensures { result ≡ sheet_of sheet.now }
{
    if sheet.len() < 2 {
        return Err(SheetError::Wrong);
    }
    let word = read16(sheet, 0);
    let count = usize::from(word % 2048);
    if 256 < count {
        return Err(SheetError::Wrong);
    }
    let more = 4 * usize::from(word / 2048 % 2);
    if sheet.len() != 20 + more + 4 * Point::NUMBERS * count {
        return Err(SheetError::Wrong);
    }
    let depth = word / 4096;
    if 4 <= depth && depth <= 8 {
        return Err(SheetError::Deep);
    }
    Ok(read_header(sheet, word))
}
