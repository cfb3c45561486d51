// Runs of bytes: putting one into another, a part of one, and whether two are the same. Contracts cite specs/Putting.
#![tactic(auto)]

ghost use Rattle.std.specs.Prelude.{◌≡◌, ◌+◌, ◌<◌, length};
ghost use Rattle.std.proofs.Math.Seq.{slice};
ghost use Rattle.table.specs.Steps.Found.{Tells};
ghost use Rattle.runs.specs.Putting.{Fits};

// Puts bytes at a place, if there is room for them; answers the place behind them either way.
pub fn put(bytes: &[u8], out: &mut [u8], at: usize) -> usize
    requires { at + length bytes.now < 18446744073709551616 }
    ensures { Fits bytes.now out.old at out.new result }
{
    let end = at + bytes.len();
    if out.len() < end {
        return end;
    }
    // A loop: `copy_from_slice` would have the archive for C need memmove.
    for (k, byte) in bytes.iter().enumerate() {
        out[at + k] = *byte;
    }
    end
}

// The bytes from a up to b, as a part of the run; a part that runs over the end is shorter.
pub fn part(bytes: &[u8], a: usize, b: usize) -> &[u8]
    ensures { result.now ≡ slice a b bytes.now }
{
    let end = b.min(bytes.len());
    let start = a.min(end);
    &bytes[start..end]
}

// Are the two runs the same?
pub fn is_same(a: &[u8], b: &[u8]) -> bool
    ensures { Tells (a.now ≡ b.now) result }
{
    a == b
}
