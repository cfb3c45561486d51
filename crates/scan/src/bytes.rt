// Classes of bytes, and what stands at a place.
ghost use Rattle.std.specs.Prelude.{◌≡◌, ◌||◌, ◌&&◌, leb};
ghost use Rattle.grammar.specs.Bytes.{is_space, is_name_start, is_name_byte, is_mark, is_no_dash, Byte, Of};
ghost use Rattle.scan.specs.Steps.Classes.{class_of};
ghost use Rattle.scan.specs.Steps.Readers.{Tells};

fn is_space(b: u8) -> bool
    ensures { result ≡ is_space b }
{
    b == b' ' || b == b'\t' || b == b'\r' || b == b'\n'
}

fn is_name_start(b: u8) -> bool
    ensures { result ≡ is_name_start b }
{
    b == b':' || b == b'_' || b.is_ascii_alphabetic()
}

fn is_name_byte(b: u8) -> bool
    ensures { result ≡ is_name_byte b }
{
    is_name_start(b) || b == b'-' || b == b'.' || b.is_ascii_digit()
}

fn is_mark(b: u8) -> bool
    ensures { result ≡ is_mark b }
{
    b == b'?' || b == b'*' || b == b'+'
}

fn is_no_dash(b: u8) -> bool
    ensures { result ≡ is_no_dash b }
{
    b != b'-'
}

// White space, the first byte of a name, a byte of a name, a mark, any byte but '-'.
#[derive(Clone, Copy)]
pub enum Class {
    Space,
    Start,
    Name,
    Mark,
    Other,
}

fn belongs(class: Class, b: u8) -> bool
    ensures { result ≡ class_of class b }
{
    match class {
        Class::Space => is_space(b),
        Class::Start => is_name_start(b),
        Class::Name => is_name_byte(b),
        Class::Mark => is_mark(b),
        Class::Other => is_no_dash(b),
    }
}

// A byte of the class stands at the place.
pub fn is_of(s: &[u8], at: usize, class: Class) -> bool
    ensures { Tells (Of (class_of class) s.now at) result }
{
    s.get(at).is_some_and(|b| belongs(class, *b))
}

// This byte stands at the place.
pub fn is(s: &[u8], at: usize, b: u8) -> bool
    ensures { Tells (Byte s.now at b) result }
{
    s.get(at) == Some(&b)
}
