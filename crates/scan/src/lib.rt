// Scanning DTD text: where it stops being the grammar, or passes a limit. Contracts cite specs/Steps.
#![tactic(auto)]

ghost use Rattle.scan.specs.Steps.Scanned.{Scanned};
ghost use Rattle.std.specs.Prelude.{◌≡◌};
ghost use Rattle.scan.specs.Steps.Readers.{place_of};

pub mod bytes;
mod group;
mod item;
pub mod piece;

// Why a part of the text does not end: the first byte that cannot stand in it, or the byte at which it passes a limit.
#[derive(Clone, Copy, PartialEq, Eq)]
pub enum Stop {
    Bad(usize),
    Over(usize),
}

fn place(r: Result<usize, Stop>) -> usize
    ensures { result ≡ place_of r }
{
    match r {
        Ok(e) => e,
        Err(Stop::Bad(k) | Stop::Over(k)) => k,
    }
}

// Scans a whole text: 20's place, 21's, or neither. Byte 65,536 is one too many, and ANY that begins before it ends at most two bytes behind it.
pub fn scan(s: &[u8]) -> Result<usize, Stop>
    ensures { Scanned s.now result }
{
    let n = s.len().min(65538);
    let r = item::items(&s[..n]);
    if place(r) > 65536 {
        return Err(Stop::Over(65536));
    }
    r
}
