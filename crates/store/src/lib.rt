// The seventeen calls for programs in C and Rust: runs and lengths in, an outcome or a sheet out. Crate store_c exports each under the same name,
// with the same clauses. Contracts cite specs/Outcomes for the outcome, and the definitions of the crate that makes the call for the answer and for the sheet.
// Arrays have a fixed size: nothing here allocates.
#![tactic(auto)]

ghost use Rattle.std.specs.Prelude.{◌≡◌};
ghost use Rattle.table.specs.Check.{TableAnswer};
ghost use Rattle.dtd.specs.Answer.{DtdAnswer};
ghost use Rattle.verdict.specs.Answers.{JudgeAnswer};
ghost use Rattle.completion.specs.Answers.{CompleteAnswer};
ghost use Rattle.mending.specs.Answers.{MendAnswer};
ghost use Rattle.proposing.specs.Answers.{ProposeAnswer};
ghost use Rattle.roles.specs.Answers.{RolesAnswer};
ghost use Rattle.pairs.specs.Maps.{maps};
ghost use Rattle.maps.specs.Answers.{JudgeMapsAnswer, CompleteMapsAnswer, MendMapsAnswer, ProposeMapsAnswer};
ghost use Rattle.carry.specs.Answers.{CarryAnswer};
ghost use Rattle.sheet.specs.Answers.{MonthAnswer};
ghost use Rattle.adding.specs.Answers.{AddAnswer};
ghost use Rattle.editing.specs.Answer.{EditAnswer};
ghost use Rattle.mail.specs.Answers.{WriteAnswer, ReadAnswer};
ghost use Rattle.store.specs.Outcomes.{outcome_of, placed_answer, Placed, Told};

use adding::add_sheets;
use carry::carry_marks;
use completion::complete;
use dtd::read_dtd;
use editing::edit_mark;
use mail::{read_listing, write_listing};
use maps::{complete_maps, judge_maps, judge_mend_maps, mend_maps};
use mending::mend;
use proposing::judge_mend;
use roles::complete_roles;
use sheet::{Sheet, month_sheet};
use table::{Refusal, check_table};
use verdict::{Answer, judge_policy, number_of, refused};

// An answer as nine numbers, the condition by its number, 0 where there is none; then the length of the chain and its 17 places.
#[repr(C)]
#[derive(Clone, Copy)]
pub struct Outcome {
    pub number: usize,
    pub place: usize,
    pub count: usize,
    pub condition: usize,
    pub element: usize,
    pub i: usize,
    pub j: usize,
    pub privilege: usize,
    pub forbidden: usize,
    pub length: usize,
    pub chain: [u8; 17],
}

impl From<Answer> for Outcome {
    ghost from_gives = { λ answer outcome. outcome ≡ outcome_of answer };

    fn from(answer: Answer) -> Outcome {
        let breach = answer.breach;
        let chain = breach.chain;
        Outcome {
            number: usize::from(answer.number),
            place: answer.place,
            count: answer.count,
            condition: number_of(breach.condition),
            element: breach.element,
            i: breach.i,
            j: breach.j,
            privilege: breach.privilege,
            forbidden: breach.forbidden,
            length: breach.length,
            chain,
        }
    }
}

// The answer of a call that gives a place.
fn placed(told: Result<usize, Refusal>) -> Answer
    ensures { result ≡ placed_answer told }
{
    match told {
        Ok(place) => refused(0, place),
        Err(refusal) => refused(refusal.number(), refusal.place()),
    }
}

// Checks a run of words: 0 and V where it is a table, else 1 to 9 or 19 and the place. All else is 0.
pub fn finnedscarf_check_table(words: &[u16]) -> Outcome
    ensures { Told (Placed (TableAnswer words.now)) result }
{
    Outcome::from(placed(check_table(words)))
}

// Reads DTD text: refuses with 20 to 22, 4, 7, 19, 8, 9 or 12 and leaves the result as it was, or answers 0 and V, writes the text's table into it and
// keeps its rest. All else is 0.
pub fn finnedscarf_read_dtd(text: &[u8], out: &mut [u16]) -> Outcome
    ensures { Told (Placed (λ n p. DtdAnswer text.now out.old 1 n p out.new)) result }
{
    Outcome::from(placed(read_dtd(text, out)))
}

// Judges a policy: refuses with 1 to 11 or 19, or answers 0 with the first breach, zeros where there is none.
pub fn finnedscarf_judge_policy(words: &[u16], marks: &[u8]) -> Outcome
    ensures { Told (JudgeAnswer words.now marks.now) result }
{
    Outcome::from(Answer::from(judge_policy(words, marks)))
}

// Completes a policy with the least permission: refuses with 1 to 12, 16 or 19 and leaves the result as it was, or writes V decided marks into it
// and keeps its rest.
pub fn finnedscarf_complete(words: &[u16], marks: &[u8], out: &mut [u8]) -> Outcome
    ensures { Told (λ a. CompleteAnswer words.now marks.now out.old a out.new) result }
{
    Outcome::from(Answer::from(complete(words, marks, out)))
}

// Completes the policies of as many roles as there are numbers, over one table: refuses with 1 to 10, 12 or 19 and leaves the numbers and the result as
// they were, or writes each role's number, 0, 11 or 16, and the V decided marks of each with 0 into its own stretch of the result, and keeps all else.
pub fn finnedscarf_complete_roles(
    words: &[u16],
    marks: &[u8],
    numbers: &mut [u16],
    out: &mut [u8],
) -> Outcome
    ensures { Told (λ a. RolesAnswer words.now marks.now numbers.old out.old a numbers.new out.new) result }
{
    Outcome::from(Answer::from(complete_roles(words, marks, numbers, out)))
}

// Mends a policy: refuses with 1 to 12 or 19 and leaves the result as it was, or writes what the rule gives into it, keeps its rest, and counts the
// marks taken.
pub fn finnedscarf_mend(words: &[u16], marks: &[u8], out: &mut [u8]) -> Outcome
    ensures { Told (λ a. MendAnswer words.now marks.now out.old a out.new) result }
{
    Outcome::from(Answer::from(mend(words, marks, out)))
}

// Judges a proposed mend: refuses with 1 to 11, 13 to 16 or 19, or accepts it with the number of changed marks.
pub fn finnedscarf_judge_mend(words: &[u16], marks: &[u8], proposed: &[u8]) -> Outcome
    ensures { Told (ProposeAnswer words.now marks.now proposed.now) result }
{
    Outcome::from(Answer::from(judge_mend(words, marks, proposed)))
}

// Judges a policy given as two bit maps: refuses with the table's numbers, 10, 23 or 24, or answers 0 with the first breach, zeros where there is none.
pub fn finnedscarf_judge_maps(words: &[u16], allowed: &[u8], forbidden: &[u8]) -> Outcome
    ensures { Told (JudgeMapsAnswer words.now (maps allowed.now forbidden.now)) result }
{
    Outcome::from(Answer::from(judge_maps(words, allowed, forbidden)))
}

// Completes such a policy with the least permission: refuses with the table's numbers, 10, 23, 24, 12 or 16 and leaves both result maps as they were, or
// writes the maps of the decided marks into them and keeps their rest.
pub fn finnedscarf_complete_maps(
    words: &[u16],
    allowed: &[u8],
    forbidden: &[u8],
    out_allowed: &mut [u8],
    out_forbidden: &mut [u8],
) -> Outcome
    ensures { Told (λ a. CompleteMapsAnswer words.now (maps allowed.now forbidden.now) (maps out_allowed.old out_forbidden.old) a (maps out_allowed.new out_forbidden.new)) result }
{
    Outcome::from(Answer::from(complete_maps(
        words,
        allowed,
        forbidden,
        out_allowed,
        out_forbidden,
    )))
}

// Mends such a policy: refuses with the table's numbers, 10, 23, 24 or 12 and leaves both result maps as they were, or writes the maps of what the rule
// gives into them, keeps their rest, and counts the marks taken.
pub fn finnedscarf_mend_maps(
    words: &[u16],
    allowed: &[u8],
    forbidden: &[u8],
    out_allowed: &mut [u8],
    out_forbidden: &mut [u8],
) -> Outcome
    ensures { Told (λ a. MendMapsAnswer words.now (maps allowed.now forbidden.now) (maps out_allowed.old out_forbidden.old) a (maps out_allowed.new out_forbidden.new)) result }
{
    Outcome::from(Answer::from(mend_maps(words, allowed, forbidden, out_allowed, out_forbidden)))
}

// Judges a proposed mend of such a policy, two maps too: refuses with the table's numbers, 10, 23, 24 or 13 to 16, or accepts it with the number of
// changed marks.
pub fn finnedscarf_judge_mend_maps(
    words: &[u16],
    allowed: &[u8],
    forbidden: &[u8],
    proposed_allowed: &[u8],
    proposed_forbidden: &[u8],
) -> Outcome
    ensures { Told (ProposeMapsAnswer words.now (maps allowed.now forbidden.now) (maps proposed_allowed.now proposed_forbidden.now)) result }
{
    Outcome::from(Answer::from(judge_mend_maps(
        words,
        allowed,
        forbidden,
        proposed_allowed,
        proposed_forbidden,
    )))
}

// Carries the marks of an old table over to a new one, by the new numbers of the old types, 65,535 for one that is gone: refuses with the old table's
// numbers, 10, 11, the new table's raised by 100, 17, 18 or 12 and leaves both results as they were, or writes the new marks and, for each old
// privilege, whether its mark is lost, and keeps the rest of both.
pub fn finnedscarf_carry_marks(
    old_words: &[u16],
    old_marks: &[u8],
    new_words: &[u16],
    new_numbers: &[u16],
    out: &mut [u8],
    lost: &mut [u8],
) -> Outcome
    ensures { Told (λ a. CarryAnswer old_words.now old_marks.now new_words.now new_numbers.now out.old lost.old a out.new lost.new) result }
{
    Outcome::from(Answer::from(carry_marks(
        old_words,
        old_marks,
        new_words,
        new_numbers,
        out,
        lost,
    )))
}

// Counts the roles of a month, whose marks stand one after another: refuses with 1 to 10, 12 or 19 and leaves the counts as they were, or answers how many
// roles are clean, break each condition and are refused, and the leaders, writes three numbers for each privilege into the counts and keeps their rest.
pub fn finnedscarf_month_sheet(words: &[u16], roles: u32, marks: &[u8], counts: &mut [u32]) -> Sheet
    ensures { MonthAnswer words.now roles marks.now counts.old result counts.new }
{
    month_sheet(words, roles, marks, counts)
}

// Adds two sheets, each with its counts: refuses with 1 to 9, 12, 19, 29 or 30 and leaves the counts as they were, or answers the sum, adds the second
// sheet's counts to the first one's and keeps their rest.
pub fn finnedscarf_add_sheets(
    words: &[u16],
    sheet: Sheet,
    counts: &mut [u32],
    more: Sheet,
    more_counts: &[u32],
) -> Sheet
    ensures { AddAnswer words.now sheet counts.old more more_counts.now result counts.new }
{
    add_sheets(words, sheet, counts, more, more_counts)
}

// Writes the listing of marks by DTD text and a format: refuses with 1, 20 to 22, 4, 7, 19, 8, 9, 10, 11 or 12 and leaves the result as it was, or answers 0 and the
// listing's length, writes it into the result and keeps the rest. All else is 0.
pub fn finnedscarf_write_listing(text: &[u8], format: u16, marks: &[u8], out: &mut [u8]) -> Outcome
    ensures { Told (Placed (λ n p. WriteAnswer text.now format marks.now out.old n p out.new)) result }
{
    Outcome::from(placed(write_listing(text, format, marks, out)))
}

// Reads a listing by DTD text and a format: refuses with 1, 20 to 22, 4, 7, 19, 8, 9, 25, 26 or 12 and leaves the result as it was, or answers 0, writes the V marks
// into the result and keeps the rest. All else is 0.
pub fn finnedscarf_read_listing(text: &[u8], format: u16, listing: &[u8], out: &mut [u8]) -> Outcome
    ensures { Told (Placed (λ n p. ReadAnswer text.now format listing.now out.old n p out.new)) result }
{
    Outcome::from(Answer::from(read_listing(text, format, listing, out)))
}

// Edits one mark and judges by the kept entries: refuses with 1 to 12 or 19 and leaves the marks and the entries as they were, or answers 0 with the first
// breach, zeros where there is none, writes the mark and the entries of the types that the privilege is below, and keeps all else of both.
pub fn finnedscarf_edit_mark(
    words: &[u16],
    marks: &mut [u8],
    kept: &mut [u16],
    privilege: usize,
    mark: u8,
) -> Outcome
    ensures { Told (λ a. EditAnswer words.now marks.old kept.old privilege mark a marks.new kept.new) result }
{
    Outcome::from(Answer::from(edit_mark(words, marks, kept, privilege, mark)))
}
