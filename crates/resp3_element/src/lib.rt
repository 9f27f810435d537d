// What planning, resolving and pushes ask of a checked RESP3 value: its kind, its elements, its integer, its bytes.
// Callers give a slice that is exactly one value; elements and blobs are handed out as parts of it.
// specs/Meaning.antt says what each answer means for the value that the bytes are, specs/Places.antt what it is for any bytes.
#![tactic(auto)]

ghost use Rattle.std.specs.Prelude.{◌≡◌, ◌-◌, ◌≤◌, ◌<◌, ◌^◌, get_or, pos, negsuc};
ghost use Rattle.buffer.specs.Part.{part};
ghost use Rattle.resp3.specs.Value.{Value, Values, more, Means};
ghost use Rattle.resp3_element.specs.Meaning.{value_kind, is_error, is_null, integer_of, blob_of, array_of, push_of, Inside, Stands, Holds};
ghost use Rattle.resp3_element.specs.Places.{kind_at, null_at, stand_at, list_at, error_at, integer_at, in_range, range_at};

use resp3::Kind;
use std::ops::Range;

// Stands at an element of a list: where that begins and ends, and how many elements there are from it on.
#[derive(Clone, Copy, PartialEq, Eq, Debug)]
pub struct Cursor {
    pub at: usize,
    pub end: usize,
    pub left: u64,
}

fn first_byte(s: &[u8]) -> u8
    ensures { result ≡ get_or s.now 0 0 }
{
    if 0 < s.len() { s[0] } else { 0 }
}

// The value's kind.
pub fn kind(s: &[u8]) -> Kind
    ensures value { (v : Value) → Means s.now v → result ≡ value_kind v }
    ensures any { result ≡ kind_at s.now }
{
    if resp3::null_word_at(s, 0) {
        return Kind::Null;
    }
    Kind::from(first_byte(s))
}

// Whether it is a server error.
pub fn is_error(s: &[u8]) -> bool
    ensures value { (v : Value) → Means s.now v → result ≡ is_error v }
    ensures any { result ≡ error_at s.now }
{
    let b = first_byte(s);
    if b == b'-' {
        return true;
    }
    b == b'!'
}

// Whether it is a null, in whatever spelling.
pub fn is_null(s: &[u8]) -> bool
    ensures value { (v : Value) → Means s.now v → result ≡ is_null v }
    ensures any { result ≡ null_at s.now }
{
    if first_byte(s) == b'_' {
        return true;
    }
    resp3::null_word_at(s, 0)
}

// A number below 2^63 as an i64.
fn positive(n: u64) -> i64
    requires { n < 2 ^ 63 }
    ensures { result ≡ pos n }
{
    n as i64
}

// -n; n is at most 2^63, so the smallest i64 is among them.
fn negative(n: u64) -> i64
    requires { (0 < n) × (n ≤ 2 ^ 63) }
    ensures { result ≡ negsuc (n - 1) }
{
    -1 - (n - 1) as i64
}

fn integer_at(s: &[u8]) -> Option<i64>
    ensures { result ≡ integer_at s.now }
{
    if first_byte(s) != b':' {
        return None;
    }
    if s.len() < 2 {
        return None;
    }
    if s[1] == b'-' {
        let (n, _) = decimal::read_num(s, 2, 9223372036854775808)?;
        if n == 0 {
            return None;
        }
        return Some(negative(n));
    }
    let (n, _) = decimal::read_num(s, 1, 9223372036854775807)?;
    Some(positive(n))
}

// The integer that it is, if it is one.
pub fn number(s: &[u8]) -> Option<i64>
    ensures value { (v : Value) → Means s.now v → result ≡ integer_of v }
    ensures any { result ≡ integer_at s.now }
{
    integer_at(s)
}

// Where a blob string's bytes stand; the empty range of any other value.
fn range_at(s: &[u8]) -> Range<usize>
    ensures { result ≡ range_at s.now }
{
    if first_byte(s) != b'$' {
        return 0..0;
    }
    let Some((n, e)) = resp3::length_at(s, 1) else {
        return 0..0;
    };
    if n as usize > s.len() - e {
        return 0..0;
    }
    e..e + n as usize
}

// The bytes of a blob string, a part of the slice; of any other value none.
pub fn blob(s: &[u8]) -> &[u8]
    ensures value { (v : Value) → Means s.now v → result.now ≡ blob_of v }
    ensures any { result.now ≡ in_range s.now (range_at s.now) }
{
    &s[range_at(s)]
}

// The cursor that stands where the first of so many elements begins.
fn stand(s: &[u8], at: usize, left: u64) -> Cursor
    ensures { result ≡ stand_at s.now at left }
{
    if left == 0 {
        return Cursor { at, end: at, left };
    }
    let end = resp3::value_end(s, at, config::MAX_DEPTH).unwrap_or(at);
    Cursor { at, end, left }
}

// The elements of a list that begins with b.
fn list(s: &[u8], b: u8) -> Option<Cursor>
    ensures { result ≡ list_at b s.now }
{
    if first_byte(s) != b {
        return None;
    }
    let (n, e) = resp3::length_at(s, 1)?;
    Some(stand(s, e, n))
}

// The elements of an array, from the first one on.
pub fn array(s: &[u8]) -> Option<Cursor>
    ensures value { (v : Value) → Means s.now v → Holds s.now result (array_of v) }
    ensures any { result ≡ list_at 42 s.now }
{
    list(s, b'*')
}

// The elements of a push, from the first one on.
pub fn push(s: &[u8]) -> Option<Cursor>
    ensures value { (v : Value) → Means s.now v → Holds s.now result (push_of v) }
    ensures any { result ≡ list_at 62 s.now }
{
    list(s, b'>')
}

// The element at which the cursor stands, a part of the slice.
pub fn element(s: &[u8], c: Cursor) -> &[u8]
    requires { Inside s.now c }
    ensures value { (v : Value) (vs : Values) → Stands s.now c (more v vs) → Means result.now v }
    ensures any { result.now ≡ part s.now c.at (c.end - c.at) }
{
    let a = c.at;
    let e = c.end;
    &s[a..e]
}

// The cursor at the next element.
pub fn next(s: &[u8], c: Cursor) -> Cursor
    requires { 0 < c.left }
    ensures value { (v : Value) (vs : Values) → Stands s.now c (more v vs) → Stands s.now result vs }
    ensures any { result ≡ stand_at s.now c.end (c.left - 1) }
{
    let at = c.end;
    let n = c.left;
    stand(s, at, n - 1)
}
