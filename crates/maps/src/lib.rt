// Verdict, completion, mending and judging over marks as two bit maps: they are spelled into marks, and the result's marks into maps. Contracts cite
// specs/Answers, and specs/Maps of crate pairs.
// Arrays have a fixed size: nothing here allocates.
#![tactic(auto)]

ghost use Rattle.std.specs.Prelude.{◌≡◌, List, ℕ, take};
ghost use Rattle.table.specs.Privilege.{privileges};
ghost use Rattle.table.specs.Steps.Order.{BottomUp};
ghost use Rattle.policy.specs.Marks.{Policy};
ghost use Rattle.verdict.specs.Results.{judged_answer, counted_answer, accepted_answer, completed_answer};
ghost use Rattle.completion.specs.Steps.Passes.{Filled};
ghost use Rattle.mending.specs.Mends.{Mends};
ghost use Rattle.proposing.specs.Answers.{ProposeAnswer};
ghost use Rattle.pairs.specs.Maps.{maps, maps_of, Paired, MapPolicy, marks_for, Roomy, before};
ghost use Rattle.pairs.specs.Faults.{proposed_refusal};
ghost use Rattle.pairs.specs.Steps.Spelling.{Holds};
ghost use Rattle.maps.specs.Answers.{JudgeMapsAnswer, CompleteMapsAnswer, MendMapsAnswer, ProposeMapsAnswer};

use completion::pass::complete_all;
use mending::mend_types::mend_all;
use pairs::changes::{count_changes, lowest_change};
use pairs::check::{PairFault, check_maps, check_pair, is_roomy};
use pairs::spelling::{spell, write_maps};
use table::Refusal;
use table::privilege::first_privileges;
use verdict::breaches::first_breach;
use verdict::{Breach, Condition, Rejection};

// Judges a policy: refuses with the table's numbers, 10, 23 or 24, or answers the first breach, none where it is clean.
pub fn judge_maps(words: &[u16], allowed: &[u8], forbidden: &[u8]) -> Result<Breach, Refusal>
    ensures { JudgeMapsAnswer words.now (maps allowed.now forbidden.now) (judged_answer result) }
{
    let mut order = [0u8; 256];
    let v = check_maps(words, allowed, forbidden, &mut order)?;
    let mut marks = [0u8; 4096];
    spell(allowed, forbidden, &mut marks);
    Ok(first_breach(words, &marks[0..v], &order))
}

// Completes the marks of a policy in place, and writes their maps. The order holds each type after its children.
fn complete_into(
    words: &[u16],
    marks: &mut [u8],
    v: usize,
    order: &[u8; 256],
    out_allowed: &mut [u8],
    out_forbidden: &mut [u8],
)
    requires { Policy words.now (take v marks.old) × Holds (take v marks.old) marks.old × (v ≡ privileges words.now) × BottomUp words.now order.now × Roomy v (maps out_allowed.old out_forbidden.old) }
    ensures { (n : List ℕ) × Filled words.now (take v marks.old) n × (maps out_allowed.new out_forbidden.new ≡ before (maps_of n) (maps out_allowed.old out_forbidden.old)) }
{
    let mut firsts = [0u16; 256];
    first_privileges(words, &mut firsts);
    complete_all(words, order, &firsts, &mut marks[0..v]);
    write_maps(marks, v, out_allowed, out_forbidden);
}

// Completes a policy with the least permission: refuses with the table's numbers, 10, 23, 24, 12 or 16, or writes the maps of the decided marks into the
// result, whose rest it keeps.
pub fn complete_maps(
    words: &[u16],
    allowed: &[u8],
    forbidden: &[u8],
    out_allowed: &mut [u8],
    out_forbidden: &mut [u8],
) -> Result<(), Rejection>
    ensures { CompleteMapsAnswer words.now (maps allowed.now forbidden.now) (maps out_allowed.old out_forbidden.old) (completed_answer result) (maps out_allowed.new out_forbidden.new) }
{
    let mut order = [0u8; 256];
    let v = check_maps(words, allowed, forbidden, &mut order)?;
    if !is_roomy(out_allowed, out_forbidden, v) {
        return Err(Rejection::Refused(Refusal::ResultLength));
    }
    let mut marks = [0u8; 4096];
    spell(allowed, forbidden, &mut marks);
    let breach = first_breach(words, &marks[0..v], &order);
    let Condition::None = breach.condition else {
        return Err(Rejection::Broken(breach));
    };
    complete_into(words, &mut marks, v, &order, out_allowed, out_forbidden);
    Ok(())
}

// Mends the marks of a policy in place, writes their maps, and counts the marks taken. The order holds each type after its children.
fn mend_into(
    words: &[u16],
    marks: &mut [u8],
    v: usize,
    order: &[u8; 256],
    out_allowed: &mut [u8],
    out_forbidden: &mut [u8],
) -> usize
    requires { Policy words.now (take v marks.old) × Holds (take v marks.old) marks.old × (v ≡ privileges words.now) × BottomUp words.now order.now × Roomy v (maps out_allowed.old out_forbidden.old) }
    ensures { (n : List ℕ) × Mends words.now (take v marks.old) n result × (maps out_allowed.new out_forbidden.new ≡ before (maps_of n) (maps out_allowed.old out_forbidden.old)) }
{
    let count = mend_all(words, order, &mut marks[0..v]);
    write_maps(marks, v, out_allowed, out_forbidden);
    count
}

// Mends a policy: refuses with the table's numbers, 10, 23, 24 or 12, or writes the maps of what the rule gives into the result, whose rest it keeps, and
// counts the marks taken.
pub fn mend_maps(
    words: &[u16],
    allowed: &[u8],
    forbidden: &[u8],
    out_allowed: &mut [u8],
    out_forbidden: &mut [u8],
) -> Result<usize, Refusal>
    ensures { MendMapsAnswer words.now (maps allowed.now forbidden.now) (maps out_allowed.old out_forbidden.old) (counted_answer result) (maps out_allowed.new out_forbidden.new) }
{
    let mut order = [0u8; 256];
    let v = check_maps(words, allowed, forbidden, &mut order)?;
    if !is_roomy(out_allowed, out_forbidden, v) {
        return Err(Refusal::ResultLength);
    }
    let mut marks = [0u8; 4096];
    spell(allowed, forbidden, &mut marks);
    Ok(mend_into(words, &mut marks, v, &order, out_allowed, out_forbidden))
}

// Judges a proposed pair of maps: refuses with 15 or 16, or accepts it with the number of changed marks. The order holds each type after its children.
fn judge_pair(
    words: &[u16],
    allowed: &[u8],
    forbidden: &[u8],
    proposed_allowed: &[u8],
    proposed_forbidden: &[u8],
    v: usize,
    order: &[u8; 256],
) -> Result<usize, Rejection>
    requires { MapPolicy words.now (maps allowed.now forbidden.now) × Paired (privileges words.now) (maps proposed_allowed.now proposed_forbidden.now) × (v ≡ privileges words.now) × BottomUp words.now order.now }
    ensures { ProposeAnswer words.now (marks_for words.now (maps allowed.now forbidden.now)) (marks_for words.now (maps proposed_allowed.now proposed_forbidden.now)) (accepted_answer result) }
{
    let found = lowest_change(allowed, forbidden, proposed_allowed, proposed_forbidden, v);
    if let Some(p) = found {
        return Err(Rejection::Refused(Refusal::Change(p)));
    }
    let mut marks = [0u8; 4096];
    spell(proposed_allowed, proposed_forbidden, &mut marks);
    let breach = first_breach(words, &marks[0..v], order);
    let Condition::None = breach.condition else {
        return Err(Rejection::Broken(breach));
    };
    Ok(count_changes(allowed, forbidden, proposed_allowed, proposed_forbidden, v))
}

// What is wrong with a proposed pair, as a refusal.
fn proposed_refusal(fault: PairFault) -> Refusal
    ensures { result ≡ proposed_refusal fault }
{
    match fault {
        PairFault::Length => Refusal::ProposedLength,
        PairFault::Both(p) => Refusal::ProposedMark(p),
        PairFault::SpareBit => Refusal::ProposedSpareBit,
    }
}

// Judges a proposed mend: refuses with the table's numbers, 10, 23, 24 or 13 to 16, or accepts it with the number of changed marks.
pub fn judge_mend_maps(
    words: &[u16],
    allowed: &[u8],
    forbidden: &[u8],
    proposed_allowed: &[u8],
    proposed_forbidden: &[u8],
) -> Result<usize, Rejection>
    ensures { ProposeMapsAnswer words.now (maps allowed.now forbidden.now) (maps proposed_allowed.now proposed_forbidden.now) (accepted_answer result) }
{
    let mut order = [0u8; 256];
    let v = check_maps(words, allowed, forbidden, &mut order)?;
    if let Err(fault) = check_pair(proposed_allowed, proposed_forbidden, v) {
        return Err(Rejection::Refused(proposed_refusal(fault)));
    }
    judge_pair(
        words,
        allowed,
        forbidden,
        proposed_allowed,
        proposed_forbidden,
        v,
        &order,
    )
}
