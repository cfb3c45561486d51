// Comparing proposed marks with those of a policy. Contracts cite specs/Proposals.
ghost use Rattle.std.specs.Prelude.{◌≡◌, ◌⊎◌, ℕ, ◌≤◌, ◌<◌, length};
ghost use Rattle.table.specs.HowMany.{HowMany};
ghost use Rattle.table.specs.Steps.Found.{Lowest, Tells};
ghost use Rattle.proposing.specs.Proposals.{Kept, Changed};

// Is the mark equal, or did it go from 1 to 2?
fn is_kept(old: u8, new: u8) -> bool
    ensures { Tells ((new ≡ old) ⊎ ((old ≡ 1) × (new ≡ 2))) result }
{
    new == old || (old == 1 && new == 2)
}

// Is each of v marks kept? All are looked at, many at a time: the loop is not left early.
fn all_kept(marks: &[u8], proposed: &[u8], v: usize) -> bool
    requires { (v ≤ length marks.now) × (v ≤ length proposed.now) }
    ensures { Tells ((p : ℕ) → p < v → Kept marks.now proposed.now p) result }
{
    let mut kept = true;
    for (&old, &new) in marks[..v].iter().zip(&proposed[..v]) {
        kept &= is_kept(old, new);
    }
    kept
}

// The lowest of v privileges whose change is another.
pub fn lowest_change(marks: &[u8], proposed: &[u8], v: usize) -> Option<usize>
    requires { (v ≤ length marks.now) × (v ≤ length proposed.now) }
    ensures { Lowest (Kept marks.now proposed.now) v result }
{
    if all_kept(marks, proposed, v) {
        return None;
    }
    for place in 0..v {
        if !is_kept(marks[place], proposed[place]) {
            return Some(place);
        }
    }
    None
}

// How many of the first v marks changed. Counted in 16 bits, eight at a time.
pub fn count_changes(marks: &[u8], proposed: &[u8], v: usize) -> usize
    requires { (v ≤ length marks.now) × (v ≤ length proposed.now) × (v ≤ 4096) }
    ensures { HowMany (Changed marks.now proposed.now) v result }
{
    let mut count = 0u16;
    for (old, new) in marks[..v].iter().zip(&proposed[..v]) {
        if new != old {
            count += 1;
        }
    }
    usize::from(count)
}
