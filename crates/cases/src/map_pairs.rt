// Cases of policies in two bit maps, kind 3.
use super::input::{lend, next_bytes, next_words};
use super::output::{put_line, put_pair};
use maps::{complete_maps, judge_maps, judge_mend_maps, mend_maps};
use std::io;
use std::io::{Read, Write};
use verdict::Answer;

// An allowed and a forbidden map.
#[derive(Clone, Copy)]
struct Pair<'a> {
    allowed: &'a [u8],
    forbidden: &'a [u8],
}

// A call that may write two maps, on its own copies of them.
fn put_result<F: FnOnce(&mut [u8], &mut [u8]) -> Answer>(
    output: &mut impl Write,
    case: usize,
    call: &str,
    lent: Pair,
    answer: F,
) -> io::Result<()>
    requires { F.IsAlwaysCallable answer }
{
    let mut allowed = [0u8; 1024];
    let mut forbidden = [0u8; 1024];
    let a = lend(lent.allowed, &mut allowed);
    let f = lend(lent.forbidden, &mut forbidden);
    let answer = answer(&mut allowed[..a], &mut forbidden[..f]);
    put_pair(output, case, call, answer, &allowed[..a], &forbidden[..f])
}

// The calls on a case.
fn put_maps(
    output: &mut impl Write,
    case: usize,
    words: &[u16],
    policy: Pair,
    lent: Pair,
    proposed: Pair,
) -> io::Result<()> {
    let Pair { allowed, forbidden } = policy;
    put_line(
        output,
        case,
        "verdict_maps",
        Answer::from(judge_maps(words, allowed, forbidden)),
    )?;
    put_result(output, case, "complete_maps", lent, |a, f| {
        Answer::from(complete_maps(words, allowed, forbidden, a, f))
    })?;
    put_result(output, case, "mend_maps", lent, |a, f| {
        Answer::from(mend_maps(words, allowed, forbidden, a, f))
    })?;
    let answer = judge_mend_maps(
        words,
        allowed,
        forbidden,
        proposed.allowed,
        proposed.forbidden,
    );
    put_line(output, case, "propose_maps", Answer::from(answer))
}

// Kind 3: a table, an allowed and a forbidden map, the maps of the result as lent, a proposed pair of maps.
pub(crate) fn run_maps(
    case: usize,
    input: &mut impl Read,
    output: &mut impl Write,
) -> io::Result<()> {
    let mut words = [0u16; 4096];
    let w = next_words(input, &mut words)?;
    let mut allowed = [0u8; 1024];
    let a = next_bytes(input, &mut allowed)?;
    let mut forbidden = [0u8; 1024];
    let f = next_bytes(input, &mut forbidden)?;
    let mut lent_allowed = [0u8; 1024];
    let m = next_bytes(input, &mut lent_allowed)?;
    let mut lent_forbidden = [0u8; 1024];
    let n = next_bytes(input, &mut lent_forbidden)?;
    let mut proposed_allowed = [0u8; 1024];
    let p = next_bytes(input, &mut proposed_allowed)?;
    let mut proposed_forbidden = [0u8; 1024];
    let q = next_bytes(input, &mut proposed_forbidden)?;
    let policy = Pair {
        allowed: &allowed[..a],
        forbidden: &forbidden[..f],
    };
    let lent = Pair {
        allowed: &lent_allowed[..m],
        forbidden: &lent_forbidden[..n],
    };
    let proposed = Pair {
        allowed: &proposed_allowed[..p],
        forbidden: &proposed_forbidden[..q],
    };
    put_maps(output, case, &words[..w], policy, lent, proposed)
}
