// Three numbers for each privilege: how often it is allowed, forbidden and unset. Contracts cite specs/Steps/Counting.
ghost use Rattle.std.specs.Prelude.{◌≡◌, ℕ, ◌+◌, ◌*◌, ◌≤◌, ◌<◌, length, get_or};
ghost use Rattle.policy.specs.Marks.{Legal};
ghost use Rattle.sheet.specs.Steps.Counting.{Room, SlotOf, MarksCounted};

// Which of a privilege's three numbers counts the mark.
fn slot_of(mark: u8) -> usize
    requires { mark ≤ 2 }
    ensures { SlotOf mark result }
{
    if mark == 0 { 2 } else { usize::from(mark) - 1 }
}

// Counts the marks of one role.
pub fn count_marks(marks: &[u8], counts: &mut [u32])
    requires { ((p : ℕ) → p < length marks.now → Legal marks.now p) × (length counts.old ≡ 3 * length marks.now) × ((p k : ℕ) → p < length marks.now → k < 3 → Room (get_or counts.old (3 * p + k) 0)) }
    ensures { MarksCounted marks.now counts.old counts.new }
{
    for (p, &mark) in marks.iter().enumerate() {
        counts[3 * p + slot_of(mark)] += 1;
    }
}
