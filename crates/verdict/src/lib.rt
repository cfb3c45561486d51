// The verdict on a policy: the three conditions, and the first breach of them.
// Contracts cite specs/Answers for what the call answers, and specs/Conditions and specs/Breaches for what a verdict is.
// Arrays have a fixed size: nothing here allocates.
#![tactic(auto)]

ghost use Rattle.std.specs.Prelude.{◌≡◌};
ghost use Rattle.verdict.specs.Breaches.{condition_number};
ghost use Rattle.verdict.specs.Answers.{refusal, done, JudgeAnswer};
ghost use Rattle.verdict.specs.Results.{refusal_answer, rejection_answer, judged_answer, counted_answer, done_answer, accepted_answer, completed_answer};
ghost use Rattle.verdict.specs.declared.Rejection.TheVariants.{Refused};

pub mod below;
pub mod breaches;
mod kept;
pub mod spoilt;

use policy::marks::check_policy;
use table::Refusal;

// What a breach breaks. None is a case of it: a breach holds one enum of these four.
#[derive(Clone, Copy)]
pub enum Condition {
    None,
    InsertDelete,
    Chain,
    Cycle,
}

// The document's number of a condition.
pub fn number_of(condition: Condition) -> usize
    ensures { result ≡ condition_number condition }
{
    match condition {
        Condition::None => 0,
        Condition::InsertDelete => 1,
        Condition::Chain => 2,
        Condition::Cycle => 3,
    }
}

// Where a breach is: the condition, the type at which it is broken, and the two positions there.
#[derive(Clone, Copy)]
pub struct Spot {
    pub condition: Condition,
    pub element: usize,
    pub i: usize,
    pub j: usize,
}

// A breach: where it is, the lowest forbidden privilege that breaks the condition there, how many do, and the chain from i to j: how many positions it
// has, and they themselves. All 0 where there is none, as C sees it.
#[derive(Clone, Copy)]
pub struct Breach {
    pub condition: Condition,
    pub element: usize,
    pub i: usize,
    pub j: usize,
    pub privilege: usize,
    pub forbidden: usize,
    pub length: usize,
    pub chain: [u8; 17],
}

// What a call answers, as numbers: what its Result says, for programs in other languages and for what is printed.
#[derive(Clone, Copy)]
pub struct Answer {
    pub number: u8,
    pub place: usize,
    pub count: usize,
    pub breach: Breach,
}

// A refusal: count 0, no breach.
pub fn refused(number: u8, place: usize) -> Answer
    ensures { result ≡ refusal number place }
{
    let none = breaches::no_breach();
    Answer {
        number,
        place,
        count: 0,
        breach: none,
    }
}

// A done answer with its count.
pub fn done_with(count: usize) -> Answer
    ensures { result ≡ done count }
{
    let mut answer = refused(0, 0);
    answer.count = count;
    answer
}

// Why completing, or judging a mend, is refused: as any call is, or by a breach, with number 16.
#[derive(Clone, Copy)]
pub enum Rejection {
    Refused(Refusal),
    Broken(Breach),
}

impl From<Refusal> for Rejection {
    ghost from_gives = { λ refusal rejection. rejection ≡ Refused refusal };

    fn from(refusal: Refusal) -> Rejection {
        Rejection::Refused(refusal)
    }
}

// The answer of a refusal.
fn refusal_answer(refusal: Refusal) -> Answer
    ensures { result ≡ refusal_answer refusal }
{
    refused(refusal.number(), refusal.place())
}

// The answer of a refusal or of a breach.
fn rejection_answer(rejection: Rejection) -> Answer
    ensures { result ≡ rejection_answer rejection }
{
    match rejection {
        Rejection::Refused(refusal) => refusal_answer(refusal),
        Rejection::Broken(breach) => Answer {
            number: 16,
            place: 0,
            count: 0,
            breach,
        },
    }
}

impl From<Result<Breach, Refusal>> for Answer {
    ghost from_gives = { λ judged answer. answer ≡ judged_answer judged };

    fn from(judged: Result<Breach, Refusal>) -> Answer {
        match judged {
            Ok(breach) => Answer {
                number: 0,
                place: 0,
                count: 0,
                breach,
            },
            Err(refusal) => refusal_answer(refusal),
        }
    }
}

impl From<Result<usize, Refusal>> for Answer {
    ghost from_gives = { λ counted answer. answer ≡ counted_answer counted };

    fn from(counted: Result<usize, Refusal>) -> Answer {
        match counted {
            Ok(count) => done_with(count),
            Err(refusal) => refusal_answer(refusal),
        }
    }
}

impl From<Result<(), Refusal>> for Answer {
    ghost from_gives = { λ done answer. answer ≡ done_answer done };

    fn from(done: Result<(), Refusal>) -> Answer {
        match done {
            Ok(()) => done_with(0),
            Err(refusal) => refusal_answer(refusal),
        }
    }
}

impl From<Result<usize, Rejection>> for Answer {
    ghost from_gives = { λ accepted answer. answer ≡ accepted_answer accepted };

    fn from(accepted: Result<usize, Rejection>) -> Answer {
        match accepted {
            Ok(count) => done_with(count),
            Err(rejection) => rejection_answer(rejection),
        }
    }
}

impl From<Result<(), Rejection>> for Answer {
    ghost from_gives = { λ completed answer. answer ≡ completed_answer completed };

    fn from(completed: Result<(), Rejection>) -> Answer {
        match completed {
            Ok(()) => done_with(0),
            Err(rejection) => rejection_answer(rejection),
        }
    }
}

// Judges a policy, whatever is lent: refuses with 1 to 11 or 19, or answers the first breach, none where it is clean.
pub fn judge_policy(words: &[u16], marks: &[u8]) -> Result<Breach, Refusal>
    ensures { JudgeAnswer words.now marks.now (judged_answer result) }
{
    let mut order = [0u8; 256];
    check_policy(words, marks, &mut order)?;
    Ok(breaches::first_breach(words, marks, &order))
}
