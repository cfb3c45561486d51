// The chain of a breach: the fewest allowed replacements from one position to another. Contracts cite specs/Chain, and specs/Steps/Ways for the parts.
// Arrays have a fixed size: nothing here allocates.
#![tactic(auto)]

ghost use Rattle.std.specs.Prelude.{◌≡◌, [], ◌≤◌};
ghost use Rattle.table.specs.Plus.{Plus};
ghost use Rattle.table.specs.Rule.{IsChoice};
ghost use Rattle.table.specs.Steps.Numbering.{NumberedAs};
ghost use Rattle.policy.specs.Marks.{Allowed, Policy};
ghost use Rattle.policy.specs.Reached.{Reached, Step};
ghost use Rattle.policy.specs.Steps.Squares.{Marked};
ghost use Rattle.chain.specs.Chain.{chain_of, ShortestChain};
ghost use Rattle.chain.specs.Steps.Ways.{Distances};

use policy::rows::{allowed_rows, has, leading_into, lowest_shared, only};
use table::privilege::Numbering;

// The positions of a chain, both ends among them: how many there are, and 17 places, 0 in the unused ones.
#[derive(Clone, Copy)]
pub struct Chain {
    pub length: usize,
    pub at: [u8; 17],
}

// No positions.
pub fn no_chain() -> Chain
    ensures { result ≡ chain_of [] }
{
    Chain {
        length: 0,
        at: [0; 17],
    }
}

// The fewest steps of the rows from i to j; for each number of steps below it, a word of the positions from which so many lead to j.
fn fewest_steps(rows: &[u16; 16], n: usize, i: usize, j: usize, sets: &mut [u16; 16]) -> usize
    requires { (n ≤ 16) × Plus (Marked n rows.now) i j }
    ensures { Distances (Marked n rows.now) n i j sets.new result }
{
    let end = only(j);
    sets[0] = end;
    let mut word = leading_into(rows, n, end);
    let mut m = 1;
    // A while: it ends because some number of steps leads from i to j.
    while !has(word, i) {
        sets[m] = word;
        word = leading_into(rows, n, word);
        m += 1;
    }
    m
}

// The chain of the rows from i to j: from each position to the lowest that is one step nearer.
fn chain_of(rows: &[u16; 16], n: usize, i: usize, j: usize) -> Chain
    requires { (n ≤ 16) × Plus (Marked n rows.now) i j }
    ensures { ShortestChain (Marked n rows.now) i j result }
{
    let mut sets = [0u16; 16];
    let m = fewest_steps(rows, n, i, j, &mut sets);
    let mut at = [0u8; 17];
    let mut p = i;
    for k in 0..m {
        at[k] = p as u8;
        p = lowest_shared(rows[p], sets[m - (k + 1)], n);
    }
    at[m] = p as u8;
    Chain { length: m + 1, at }
}

// The chain from i to j at the choice x of a policy.
pub fn chain_between(
    words: &[u16],
    marks: &[u8],
    x: usize,
    n: Numbering,
    i: usize,
    j: usize,
) -> Chain
    requires { Policy words.now marks.now × IsChoice words.now x × NumberedAs words.now x n × Reached words.now (Allowed marks.now) x i j }
    ensures { ShortestChain (Step words.now (Allowed marks.now) x) i j result }
{
    let rows = allowed_rows(marks, n);
    chain_of(&rows, n.count, i, j)
}
