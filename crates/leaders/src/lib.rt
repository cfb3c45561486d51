// The privileges that are allowed most often: one pass in ascending order, in which most do not enter among the leaders. Contracts cite specs/Leaders,
// and specs/Steps/Entering for the parts.
// Arrays have a fixed size: nothing here allocates.
#![tactic(auto)]

ghost use Rattle.std.specs.Prelude.{◌≡◌, ◌+◌, ◌/◌, ◌≤◌, ◌<◌, length};
ghost use Rattle.table.specs.Steps.Found.{Tells};
ghost use Rattle.leaders.specs.Leaders.{LeadersOf, often_of};
ghost use Rattle.leaders.specs.Steps.Entering.{LeadersBelow, Behind, Bar};

// How many leaders there are, and which; 0 in unused places.
#[derive(Clone, Copy)]
pub struct Leaders {
    pub count: u32,
    pub at: [usize; 3],
}

// How often privilege p is allowed.
fn often_at(counts: &[u32], p: usize) -> u32
    requires { p < length counts.now / 3 }
    ensures { result ≡ often_of counts.now p }
{
    counts[3 * p]
}

// Of the leaders below p: is the one at place k allowed less often than p, or is there none?
fn is_behind(counts: &[u32], at: [usize; 3], p: usize, k: usize) -> bool
    requires { LeadersBelow (often_of counts.now) p at × (p < length counts.now / 3) × (k < 3) }
    ensures { Tells (Behind (often_of counts.now) p at k) result }
{
    if p <= k {
        return true;
    }
    let leader = at[k];
    often_at(counts, leader) < often_at(counts, p)
}

// The leaders once p has entered: behind each that is allowed as often, ahead of the others.
fn entered(counts: &[u32], at: [usize; 3], p: usize) -> [usize; 3]
    requires { LeadersBelow (often_of counts.now) p at × (p < length counts.now / 3) × Behind (often_of counts.now) p at 2 }
    ensures { LeadersBelow (often_of counts.now) (p + 1) result }
{
    let first = at[0];
    let second = at[1];
    if is_behind(counts, at, p, 0) {
        return [p, first, second];
    }
    if is_behind(counts, at, p, 1) {
        return [first, p, second];
    }
    [first, second, p]
}

// How often privilege p must be allowed to enter: more often than the last of three leaders, 0 times where there are fewer.
fn bar_at(counts: &[u32], at: [usize; 3], p: usize) -> u64
    requires { LeadersBelow (often_of counts.now) p at × (p ≤ length counts.now / 3) }
    ensures { Bar (often_of counts.now) p at result }
{
    if p < 3 {
        return 0;
    }
    let last = at[2];
    u64::from(often_at(counts, last)) + 1
}

// The leaders of a run that holds three numbers for each privilege, of which the first says how often it is allowed.
pub fn leaders_of(counts: &[u32]) -> Leaders
    ensures { LeadersOf (length counts.now / 3) (often_of counts.now) result.count result.at }
{
    let v = counts.len() / 3;
    let mut at = [0usize; 3];
    let mut bar = 0u64;
    for p in 0..v {
        if bar <= u64::from(often_at(counts, p)) {
            let next = entered(counts, at, p);
            bar = bar_at(counts, next, p + 1);
            at = next;
        }
    }
    Leaders {
        count: v.min(3) as u32,
        at,
    }
}
