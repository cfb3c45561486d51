// Marks read eight at a time, two bits for each, and gathered into a row of bits; a gap opened in a row of bits, and closed.
// Contracts cite specs/Steps/Packed.
ghost use Rattle.std.specs.Prelude.{ℕ, ◌+◌, ◌≤◌, ◌<◌, length};
ghost use Rattle.table.specs.Steps.Reading.{Within};
ghost use Rattle.policy.specs.Marks.{Legal};
ghost use Rattle.policy.specs.Steps.Packed.{four_at, Eight, Gathered, Sixteen, Opened, Closed};

// The lowest bit of each four.
const LOWEST: u64 = 0x1111_1111;

// 1 + 2^7 + 2^14 + 2^21: a product with it has, from bit 21 on, the lowest bits of eight fours side by side.
const SIDE_BY_SIDE: u64 = 0x20_4081;

fn wide(x: u8) -> u64
    ensures { Within 256 x result }
{
    u64::from(x)
}

// Four marks from a place on, a byte for each, the first in the lowest. The compiler makes it one load.
fn four(marks: &[u8], at: usize) -> u64
    requires { at + 4 ≤ length marks.now }
    ensures { Within 4294967296 (four_at marks.now at) result }
{
    wide(marks[at])
        + 256 * wide(marks[at + 1])
        + 65536 * wide(marks[at + 2])
        + 16777216 * wide(marks[at + 3])
}

// Eight marks from a place on: the second four stand in the upper halves of the first four's bytes.
pub fn eight(marks: &[u8], at: usize) -> u64
    requires { (at + 8 ≤ length marks.now) × ((p : ℕ) → p < length marks.now → Legal marks.now p) }
    ensures { Eight marks.now at result }
{
    four(marks, at) + 16 * four(marks, at + 4)
}

// The bits at the places of eight marks, side by side.
pub fn gathered(eight: u64) -> u64
    requires { eight < 4294967296 }
    ensures { Gathered eight result }
{
    (eight & LOWEST) * SIDE_BY_SIDE / 2097152 % 256
}

// The same of sixteen marks, which are two eights.
pub(crate) fn sixteen(first: u64, second: u64) -> u64
    requires { (first < 4294967296) × (second < 4294967296) }
    ensures { Sixteen first second result }
{
    gathered(first) + 256 * gathered(second)
}

// Opens a gap at position i of a row, whose own are the first bits: those from i on once more puts each one place up. Past the row's own there are none.
pub(crate) fn with_gap(bits: u64, width: usize, i: usize) -> u16
    requires { (width ≤ 16) × (i < 32) × (i < 16 → width < 16) }
    ensures { Opened width i bits result }
{
    let own = bits % (1 << width);
    (own + (own - own % (1 << i))) as u16
}

// Closes the gap at position i.
pub(crate) fn without_gap(row: u16, i: usize) -> u16
    requires { i < 32 }
    ensures { Closed i row result }
{
    let whole = u32::from(row);
    let half = whole / 2;
    (whole % (1 << i) + (half - half % (1 << i))) as u16
}
