// RESP3 values in bytes: where a value ends, and whether bytes are exactly one value.
// specs/Value.antt says what a value is and how it is written; proofs/Law.antt that this reader and that writing agree.
#![tactic(auto)]

ghost use Rattle.std.specs.Prelude.{◌≡◌, true, ◌+◌, ◌-◌, ◌≤◌, length, drop};
ghost use Rattle.buffer.specs.Same.{same};
ghost use Rattle.buffer.specs.Part.{part, put};
ghost use Rattle.resp3.specs.Kinds.{kind_of, shape_of};
ghost use Rattle.resp3.specs.Value.{plain_b, null_bytes};
ghost use Rattle.resp3.specs.Ends.{length_at, crlf_end, plain, line_end, blob_end, verbatim_end, number_end, boolean_end, alone_of, null_word_b, one_end, kind_head};
ghost use Rattle.resp3.specs.Ends.{null_head, head_at, value_end, is_value};

// An end is the place after the last byte of what stands at a place, and None where that does not stand there whole. A head is the beginning of a value: how
// many values are inside it, and where the first of them stands (or, with none, where it ends).

// The kinds of RESP3, and one for a byte that begins none.
#[derive(Clone, Copy, PartialEq, Eq, Debug)]
pub enum Kind {
    BlobString,
    SimpleString,
    SimpleError,
    Number,
    Null,
    Double,
    Boolean,
    BlobError,
    VerbatimString,
    BigNumber,
    Array,
    Map,
    Set,
    Attribute,
    Push,
    Unknown,
}

// How a kind is written.
#[derive(Clone, Copy, PartialEq, Eq, Debug)]
pub enum Shape {
    Blob,
    Line,
    Integer,
    Empty,
    Flag,
    Verbatim,
    List,
    Pairs,
    PairsAndValue,
    Nothing,
}

// The kind that begins with a byte.
impl From<u8> for Kind {
    ghost from_gives = { λ b kind. kind ≡ kind_of b };

    #[tactic(auto, unfolding(crate::specs::Kinds::kind_of))]
    fn from(b: u8) -> Kind {
        match b {
            b'$' => Kind::BlobString,
            b'+' => Kind::SimpleString,
            b'-' => Kind::SimpleError,
            b':' => Kind::Number,
            b'_' => Kind::Null,
            b',' => Kind::Double,
            b'#' => Kind::Boolean,
            b'!' => Kind::BlobError,
            b'=' => Kind::VerbatimString,
            b'(' => Kind::BigNumber,
            b'*' => Kind::Array,
            b'%' => Kind::Map,
            b'~' => Kind::Set,
            b'|' => Kind::Attribute,
            b'>' => Kind::Push,
            _ => Kind::Unknown,
        }
    }
}

// How a kind is written.
fn shape_of(k: Kind) -> Shape
    ensures { result ≡ shape_of k }
{
    match k {
        Kind::BlobString => Shape::Blob,
        Kind::SimpleString => Shape::Line,
        Kind::SimpleError => Shape::Line,
        Kind::Number => Shape::Integer,
        Kind::Null => Shape::Empty,
        Kind::Double => Shape::Line,
        Kind::Boolean => Shape::Flag,
        Kind::BlobError => Shape::Blob,
        Kind::VerbatimString => Shape::Verbatim,
        Kind::BigNumber => Shape::Line,
        Kind::Array => Shape::List,
        Kind::Map => Shape::Pairs,
        Kind::Set => Shape::List,
        Kind::Attribute => Shape::PairsAndValue,
        Kind::Push => Shape::List,
        Kind::Unknown => Shape::Nothing,
    }
}

// A length or a count. One that is larger than the whole slice is refused here: its bytes or values cannot follow.
pub fn length_at(s: &[u8], at: usize) -> Option<(u64, usize)>
    ensures { result ≡ length_at s.now at }
{
    decimal::read_num(s, at, s.len() as u64)
}

// CR LF.
fn crlf_end(s: &[u8], at: usize) -> Option<usize>
    ensures { result ≡ crlf_end s.now at }
{
    if decimal::crlf_at(s, at) {
        Some(at + 2)
    } else {
        None
    }
}

// Whether b is neither CR nor LF.
#[tactic(auto, unfolding(crate::specs::Value::plain_b))]
fn is_plain(b: u8) -> bool
    ensures { result ≡ plain_b b }
{
    b != b'\r' && b != b'\n'
}

// The first place from `at` on where a CR or an LF stands, or where the slice ends.
pub fn plain_end(s: &[u8], at: usize) -> usize
    ensures { result ≡ at + plain (drop at s.now) }
{
    for i in at..s.len() {
        if !is_plain(s[i]) {
            return i;
        }
    }
    at.max(s.len())
}

// A line: bytes that are neither CR nor LF, then CR LF.
fn line_end(s: &[u8], at: usize) -> Option<usize>
    ensures { result ≡ line_end s.now at }
{
    crlf_end(s, plain_end(s, at))
}

// A length, as many bytes, CR LF.
fn blob_end(s: &[u8], at: usize) -> Option<usize>
    ensures { result ≡ blob_end s.now at }
{
    let (n, e) = length_at(s, at)?;
    crlf_end(s, e + n as usize)
}

// The same, of at least four bytes, the fourth a colon.
fn verbatim_end(s: &[u8], at: usize) -> Option<usize>
    ensures { result ≡ verbatim_end s.now at }
{
    let (n, e) = length_at(s, at)?;
    if n < 4 {
        return None;
    }
    if e + 3 >= s.len() {
        return None;
    }
    if s[e + 3] != b':' {
        return None;
    }
    crlf_end(s, e + n as usize)
}

// An integer of 64 bits, CR LF.
fn number_end(s: &[u8], at: usize) -> Option<usize>
    ensures { result ≡ number_end s.now at }
{
    if at >= s.len() {
        return None;
    }
    if s[at] == b'-' {
        let (n, e) = decimal::read_num(s, at + 1, 9223372036854775808)?;
        if n == 0 {
            return None;
        }
        return Some(e);
    }
    let (_, e) = decimal::read_num(s, at, 9223372036854775807)?;
    Some(e)
}

// t or f, CR LF.
fn boolean_end(s: &[u8], at: usize) -> Option<usize>
    ensures { result ≡ boolean_end s.now at }
{
    if at >= s.len() {
        return None;
    }
    match s[at] {
        b't' | b'f' => crlf_end(s, at + 1),
        _ => None,
    }
}

// A value with none inside it.
fn alone(end: Option<usize>) -> Option<(u64, usize)>
    ensures { result ≡ alone_of end }
{
    end.map(|e| (0, e))
}

// Whether `$` or `*` stands at `at` with a minus behind it: so begin RESP2's nulls, and no other value.
pub fn null_word_at(s: &[u8], at: usize) -> bool
    ensures { result ≡ null_word_b s.now at }
{
    if s.len() < 2 {
        return false;
    }
    if at > s.len() - 2 {
        return false;
    }
    if s[at + 1] != b'-' {
        return false;
    }
    if s[at] == b'$' {
        return true;
    }
    s[at] == b'*'
}

// The rest of such a null: 1, CR LF.
fn one_end(s: &[u8], at: usize) -> Option<usize>
    ensures { result ≡ one_end s.now at }
{
    if at >= s.len() {
        return None;
    }
    if s[at] != b'1' {
        return None;
    }
    crlf_end(s, at + 1)
}

// What stands at `at`, up to the first value inside it, by the kind of its first byte.
fn kind_head(s: &[u8], at: usize) -> Option<(u64, usize)>
    ensures { result ≡ kind_head s.now at }
{
    if at >= s.len() {
        return None;
    }
    let p = at + 1;
    match shape_of(Kind::from(s[at])) {
        Shape::Blob => alone(blob_end(s, p)),
        Shape::Line => alone(line_end(s, p)),
        Shape::Integer => alone(number_end(s, p)),
        Shape::Empty => alone(crlf_end(s, p)),
        Shape::Flag => alone(boolean_end(s, p)),
        Shape::Verbatim => alone(verbatim_end(s, p)),
        Shape::List => length_at(s, p),
        Shape::Pairs => {
            let (n, e) = length_at(s, p)?;
            Some((n + n, e))
        }
        Shape::PairsAndValue => {
            let (n, e) = length_at(s, p)?;
            Some((n + n + 1, e))
        }
        Shape::Nothing => None,
    }
}

// A null of RESP2's, which an old server sends.
fn null_head(s: &[u8], at: usize) -> Option<(u64, usize)>
    ensures { result ≡ null_head s.now at }
{
    if null_word_at(s, at) {
        return alone(one_end(s, at + 2));
    }
    None
}

// Either of the two. By the kind of their first byte those nulls have a length or a count that is none, so that no other value pays for a look at them.
fn head_at(s: &[u8], at: usize) -> Option<(u64, usize)>
    ensures { result ≡ head_at s.now at }
{
    kind_head(s, at).or_else(|| null_head(s, at))
}

// Where the value at `at` ends, if one stands there that nests at most depth deep.
pub fn value_end(s: &[u8], at: usize, depth: usize) -> Option<usize>
    ensures { result ≡ value_end depth s.now at }
{
    if depth == 0 {
        return None;
    }
    let (n, e) = head_at(s, at)?;
    let mut q = e;
    for _ in 0..n {
        q = value_end(s, q, depth - 1)?;
    }
    Some(q)
}

// Whether the bytes are exactly one value, with nothing after it, of at most 16 MiB and 16 levels:
// the test of replies, of a push and of a value to be stored.
pub fn is_value(s: &[u8]) -> bool
    ensures { result ≡ is_value s.now }
{
    if s.len() > config::MAX_BYTES {
        return false;
    }
    value_end(s, 0, config::MAX_DEPTH).is_some_and(|e| e == s.len())
}

// Whether `_` stands at `at`.
pub fn null_at(s: &[u8], at: usize) -> bool
    requires { at + length null_bytes ≤ length s.now }
    ensures { result ≡ same (part s.now at (length null_bytes)) null_bytes }
{
    buffer::same_at(s, at, b"_\r\n")
}

// `_`, written at `at`.
pub fn write_null(s: &mut [u8], at: usize)
    requires { at + length null_bytes ≤ length s.old }
    ensures { s.new ≡ put s.old at null_bytes }
{
    buffer::copy_to(s, at, b"_\r\n");
}

// Whether the bytes of s from `from` up to `to` are a blob string, and so a value: most values in an arena are. It reads them where they stand.
fn blob_in(s: &[u8], from: usize, to: usize) -> bool
    requires { (from ≤ to) × (to ≤ length s.now) }
    ensures { result ≡ true → is_value (part s.now from (to - from)) ≡ true }
{
    let size = to - from;
    if size < 6 {
        return false;
    }
    if size > config::MAX_BYTES {
        return false;
    }
    if s[from] != b'$' {
        return false;
    }
    let Some((n, e)) = decimal::read_num(s, from + 1, size as u64) else {
        return false;
    };
    let end = e + n as usize;
    if end + 2 != to {
        return false;
    }
    decimal::crlf_at(s, end)
}

// The same test of the bytes of s from `from` up to `to`. A blob string is taken at once; a slice of their own is made only for other bytes.
pub fn value_in(s: &[u8], from: usize, to: usize) -> bool
    requires { (from ≤ to) × (to ≤ length s.now) }
    ensures { result ≡ is_value (part s.now from (to - from)) }
{
    if blob_in(s, from, to) {
        return true;
    }
    is_value(&s[from..to])
}
