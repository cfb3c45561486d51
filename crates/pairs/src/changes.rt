// Comparing a proposed pair of maps with a policy's own, byte by byte. Contracts cite crate proposing's specs/Proposals of the marks that they spell, and
// specs/Steps/Changing for the parts.
ghost use Rattle.std.specs.Prelude.{◌≡◌, ℕ, ◌/◌, ◌%◌, ◌≤◌, ◌<◌, length};
ghost use Rattle.table.specs.HowMany.{HowMany};
ghost use Rattle.table.specs.Steps.Found.{Lowest, Tells};
ghost use Rattle.proposing.specs.Proposals.{Kept, Changed};
ghost use Rattle.pairs.specs.Maps.{maps, marks_of, Paired};
ghost use Rattle.pairs.specs.Steps.Changing.{ChangedIn, OtherIn, OtherAt, Picked};

// Which of eight privileges changed.
fn changed(allowed: u8, forbidden: u8, proposed_allowed: u8, proposed_forbidden: u8) -> u8
    ensures { Picked (ChangedIn allowed forbidden proposed_allowed proposed_forbidden) result }
{
    (allowed ^ proposed_allowed) | (forbidden ^ proposed_forbidden)
}

// Which of eight privileges have a change that is another than from allowed to forbidden.
fn other_changes(allowed: u8, forbidden: u8, proposed_allowed: u8, proposed_forbidden: u8) -> u8
    ensures { Picked (OtherIn allowed forbidden proposed_allowed proposed_forbidden) result }
{
    changed(allowed, forbidden, proposed_allowed, proposed_forbidden)
        & !(allowed & proposed_forbidden)
}

// Is there no other change? All bytes are looked at, many at a time: the loop is not left early.
fn all_kept(
    allowed: &[u8],
    forbidden: &[u8],
    proposed_allowed: &[u8],
    proposed_forbidden: &[u8],
) -> bool
    requires { (length forbidden.now ≡ length allowed.now) × (length proposed_allowed.now ≡ length allowed.now) × (length proposed_forbidden.now ≡ length allowed.now) }
    ensures { Tells ((k : ℕ) → k < length allowed.now → (j : ℕ) → j < 8 → ¬ OtherAt (maps allowed.now forbidden.now) (maps proposed_allowed.now proposed_forbidden.now) k j) result }
{
    let mut kept = true;
    for k in 0..allowed.len() {
        let other = other_changes(
            allowed[k],
            forbidden[k],
            proposed_allowed[k],
            proposed_forbidden[k],
        );
        kept &= other == 0;
    }
    kept
}

// Has privilege p another change?
fn is_other(
    allowed: &[u8],
    forbidden: &[u8],
    proposed_allowed: &[u8],
    proposed_forbidden: &[u8],
    p: usize,
) -> bool
    requires { (p / 8 < length allowed.now) × (p / 8 < length forbidden.now) × (p / 8 < length proposed_allowed.now) × (p / 8 < length proposed_forbidden.now) }
    ensures { Tells (OtherAt (maps allowed.now forbidden.now) (maps proposed_allowed.now proposed_forbidden.now) (p / 8) (p % 8)) result }
{
    let k = p / 8;
    let other = other_changes(
        allowed[k],
        forbidden[k],
        proposed_allowed[k],
        proposed_forbidden[k],
    );
    (other >> (p % 8)) & 1 == 1
}

// The lowest of v privileges whose change is another than from allowed to forbidden.
pub fn lowest_change(
    allowed: &[u8],
    forbidden: &[u8],
    proposed_allowed: &[u8],
    proposed_forbidden: &[u8],
    v: usize,
) -> Option<usize>
    requires { Paired v (maps allowed.now forbidden.now) × Paired v (maps proposed_allowed.now proposed_forbidden.now) × (v ≤ 4096) }
    ensures { Lowest (Kept (marks_of v (maps allowed.now forbidden.now)) (marks_of v (maps proposed_allowed.now proposed_forbidden.now))) v result }
{
    if all_kept(allowed, forbidden, proposed_allowed, proposed_forbidden) {
        return None;
    }
    for p in 0..v {
        if is_other(allowed, forbidden, proposed_allowed, proposed_forbidden, p) {
            return Some(p);
        }
    }
    None
}

// How many of v marks changed. Counted in 16 bits, eight bytes at a time.
pub fn count_changes(
    allowed: &[u8],
    forbidden: &[u8],
    proposed_allowed: &[u8],
    proposed_forbidden: &[u8],
    v: usize,
) -> usize
    requires { Paired v (maps allowed.now forbidden.now) × Paired v (maps proposed_allowed.now proposed_forbidden.now) × (v ≤ 4096) }
    ensures { HowMany (Changed (marks_of v (maps allowed.now forbidden.now)) (marks_of v (maps proposed_allowed.now proposed_forbidden.now))) v result }
{
    let mut count = 0u16;
    for k in 0..allowed.len() {
        let more = changed(
            allowed[k],
            forbidden[k],
            proposed_allowed[k],
            proposed_forbidden[k],
        );
        count += more.count_ones() as u16;
    }
    usize::from(count)
}
