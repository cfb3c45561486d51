// Readers of particles (48), choices (49) and sequences (50), which call each other while the depth or the bytes that are left fall.
ghost use Rattle.std.specs.Prelude.{◌≤◌, List, length};
ghost use Rattle.grammar.proofs.Unique.{Separator};
ghost use Rattle.scan.specs.Steps.Claims.{Frame, ParticleThen, InsideThen, Closing, ChoiceRest, SequenceRest, Rest, RestMarked};
ghost use Rattle.scan.specs.Steps.Moves.{Reads};

use crate::Stop;
use crate::bytes::is;
use crate::piece::{blanks, mark, name, word};

// A particle, with this many groups still allowed.
#[cycle(choice_group_inside_particle_row_sequence)]
fn particle(s: &[u8], at: usize, depth: usize) -> Result<usize, Stop>
    requires { at ≤ length s.now }
    ensures { (fs : List Frame) → Reads (ParticleThen depth (Rest fs)) (Rest fs) s.now at result }
{
    if is(s, at, b'(') {
        if depth == 0 {
            return Err(Stop::Over(at));
        }
        return group(s, blanks(s, at + 1), depth - 1);
    }
    let e = name(s, at)?;
    Ok(mark(s, e))
}

// A group and its mark, from behind its '(' and white space on.
#[cycle(choice_group_inside_particle_row_sequence)]
pub(crate) fn group(s: &[u8], at: usize, depth: usize) -> Result<usize, Stop>
    requires { at ≤ length s.now }
    ensures { (fs : List Frame) → Reads (InsideThen depth (RestMarked fs)) (Rest fs) s.now at result }
{
    let e = inside(s, at, depth)?;
    Ok(mark(s, e))
}

// The inside of a group, to its ')'.
#[cycle(choice_group_inside_particle_row_sequence)]
fn inside(s: &[u8], at: usize, depth: usize) -> Result<usize, Stop>
    requires { at ≤ length s.now }
    ensures { (fs : List Frame) → Reads (InsideThen depth (RestMarked fs)) (RestMarked fs) s.now at result }
{
    let e = particle(s, at, depth)?;
    let b = blanks(s, e);
    if is(s, b, b'|') {
        return choice(s, b, depth);
    }
    sequence(s, b, depth)
}

// The rest of a choice, from behind its first particle and white space on.
#[cycle(choice_group_inside_particle_row_sequence)]
fn choice(s: &[u8], at: usize, depth: usize) -> Result<usize, Stop>
    requires { at ≤ length s.now }
    ensures { (fs : List Frame) → Reads (ChoiceRest depth (RestMarked fs)) (RestMarked fs) s.now at result }
{
    row(s, at, depth, b'|')
}

// The rest of a sequence.
#[cycle(choice_group_inside_particle_row_sequence)]
fn sequence(s: &[u8], at: usize, depth: usize) -> Result<usize, Stop>
    requires { at ≤ length s.now }
    ensures { (fs : List Frame) → Reads (SequenceRest depth (RestMarked fs)) (RestMarked fs) s.now at result }
{
    row(s, at, depth, b',')
}

// Particles, each behind a separator, and the ')'.
#[cycle(choice_group_inside_particle_row_sequence)]
fn row(s: &[u8], at: usize, depth: usize, separator: u8) -> Result<usize, Stop>
    requires { (at ≤ length s.now) × Separator separator }
    ensures { (fs : List Frame) → Reads (Closing separator depth (RestMarked fs)) (RestMarked fs) s.now at result }
{
    let mut i = at;
    // A while: a particle and the white space behind it have any length.
    while is(s, i, separator) {
        let e = particle(s, blanks(s, i + 1), depth)?;
        i = blanks(s, e);
    }
    word(s, i, b")")
}
