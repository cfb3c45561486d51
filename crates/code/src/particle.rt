// Putting names, particles, choices and sequences into code.
ghost use Rattle.std.specs.Prelude.{◌≤◌, length};
ghost use Rattle.grammar.proofs.Unique.{Separator};
ghost use Rattle.code.specs.Steps.Putting.{CloseRead, NamePut, ParticlePut, GroupPut, RestPut};

use crate::{Code, more, put_mark};
use names::list::NameList;
use names::walk::name_end;
use scan::bytes::is;
use scan::piece::blanks;

// The words of a choice and of a sequence: their kinds, 4 and 3.
const CHOICE: u32 = 262144;

const SEQUENCE: u32 = 196608;

// Puts a name's number, and answers the place behind the name.
fn put_name(s: &[u8], at: usize, names: &NameList, code: &mut Code) -> usize
    requires { at ≤ length s.now }
    ensures { NamePut s.now names.now.entries names.now.count at code.old.words code.old.size code.new.words result code.new.size }
{
    let e = name_end(s, at);
    if code.size >= 1280 {
        code.size = more(code.size);
        return e;
    }
    let n = names.number(s, at).min(65535) as u32;
    code.push(n);
    e
}

// Puts a particle, with this many groups still allowed, and answers the place behind it.
#[cycle(put_group_put_particle_put_rest)]
pub(crate) fn put_particle(
    s: &[u8],
    at: usize,
    depth: usize,
    names: &NameList,
    code: &mut Code,
) -> usize
    requires { at ≤ length s.now }
    ensures { ParticlePut s.now names.now.entries names.now.count depth at code.old.words code.old.size code.new.words result code.new.size }
{
    let start = code.size;
    if is(s, at, b'(') {
        if depth == 0 {
            return at;
        }
        let g = put_group(s, blanks(s, at + 1), depth - 1, names, code);
        return put_mark(s, g, code, start);
    }
    let n = put_name(s, at, names, code);
    put_mark(s, n, code, start)
}

// Puts the inside of a group, to its ')', and answers the place behind that.
#[cycle(put_group_put_particle_put_rest)]
fn put_group(s: &[u8], at: usize, depth: usize, names: &NameList, code: &mut Code) -> usize
    requires { at ≤ length s.now }
    ensures { GroupPut s.now names.now.entries names.now.count depth at code.old.words code.old.size code.new.words result code.new.size }
{
    let start = code.size;
    let p = put_particle(s, at, depth, names, code);
    let b = blanks(s, p);
    if is(s, b, b'|') {
        return put_rest(s, b, depth, names, code, start, b'|', CHOICE);
    }
    if is(s, b, b',') {
        return put_rest(s, b, depth, names, code, start, b',', SEQUENCE);
    }
    behind(s, b)
}

// The place behind a ')', if one stands there.
fn behind(s: &[u8], at: usize) -> usize
    requires { at ≤ length s.now }
    ensures { CloseRead s.now at result }
{
    if is(s, at, b')') {
        return at + 1;
    }
    at
}

// Puts the particles behind a row's first one, and the operator before all of them, and answers the place behind the row's ')'.
#[cycle(put_group_put_particle_put_rest)]
fn put_rest(
    s: &[u8],
    at: usize,
    depth: usize,
    names: &NameList,
    code: &mut Code,
    start: usize,
    separator: u8,
    kind: u32,
) -> usize
    requires { (at ≤ length s.now) × Separator separator × (kind ≤ 262144) }
    ensures { RestPut s.now names.now.entries names.now.count depth at start separator kind code.old.words code.old.size code.new.words result code.new.size }
{
    let mut i = at;
    let mut n: usize = 1;
    // A while: a particle and the white space behind it have any length.
    while is(s, i, separator) {
        let p = put_particle(s, blanks(s, i + 1), depth, names, code);
        i = blanks(s, p);
        n += 1;
    }
    let w = kind + n.min(65535) as u32;
    code.insert(start, w);
    behind(s, i)
}
