// Numbers and floats of a sheet, most significant byte first.
ghost use Rattle.std.specs.Prelude.{◌≡◌, ◌+◌, ◌*◌, ◌≤◌, length};
ghost use Rattle.lists.specs.Lists.{tabulate};
ghost use Rattle.sheet.specs.Sheet.{be16, be32, be64, f32_at, f64_at, float_at};

// Two bytes from a place on.
#[tactic(auto, unfolding(crate::specs::Sheet::be16))]
pub fn read16(sheet: &[u8], at: usize) -> u16
    requires { at + 2 ≤ length sheet.now }
    ensures { result ≡ be16 sheet.now at }
{
    u16::from_be_bytes([sheet[at], sheet[at + 1]])
}

// Four bytes.
#[tactic(auto, unfolding(crate::specs::Sheet::be16, crate::specs::Sheet::be32))]
fn read32(sheet: &[u8], at: usize) -> u32
    requires { at + 4 ≤ length sheet.now }
    ensures { result ≡ be32 sheet.now at }
{
    u32::from_be_bytes([sheet[at], sheet[at + 1], sheet[at + 2], sheet[at + 3]])
}

// Eight bytes.
#[tactic(auto, unfolding(crate::specs::Sheet::be16, crate::specs::Sheet::be32, crate::specs::Sheet::be64))]
fn read64(sheet: &[u8], at: usize) -> u64
    requires { at + 8 ≤ length sheet.now }
    ensures { result ≡ be64 sheet.now at }
{
    u64::from_be_bytes([
        sheet[at],
        sheet[at + 1],
        sheet[at + 2],
        sheet[at + 3],
        sheet[at + 4],
        sheet[at + 5],
        sheet[at + 6],
        sheet[at + 7],
    ])
}

// The float of four bytes; each NaN pattern is the one NaN.
pub fn read_f32(sheet: &[u8], at: usize) -> f32
    requires { at + 4 ≤ length sheet.now }
    ensures { result ≡ f32_at sheet.now at }
{
    arith::float32(read32(sheet, at))
}

// The float of eight bytes.
pub fn read_f64(sheet: &[u8], at: usize) -> f64
    requires { at + 8 ≤ length sheet.now }
    ensures { result ≡ f64_at sheet.now at }
{
    arith::float64(read64(sheet, at))
}

// As many floats as there is room for, from a place on: the points of a sheet.
#[tactic(auto, using(lists::specs::Laws::Fill::filled_none, lists::specs::Laws::Fill::filled_done))]
pub fn read_floats(sheet: &[u8], start: usize, out: &mut [f32])
    requires { start + 4 * length out.old ≤ length sheet.now }
    ensures { out.new ≡ tabulate (length out.old) (float_at sheet.now start) }
{
    for i in 0..out.len() {
        out[i] = read_f32(sheet, start + 4 * i);
    }
}
