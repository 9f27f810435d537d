// A RESP3 value in bytes that may end inside it: where it ends, or the least number of bytes that it still lacks, or that no value begins so.
// specs/Meaning.antt says what that means, specs/Law.antt that this reader finds it. It is one pass over the bytes: a caller that got more of them
// asks again from the value's start, and the passes over a value that comes in pieces are as many as the pieces.
#![tactic(auto)]

ghost use Rattle.std.specs.Prelude.{◌≡◌, ◌+◌, ◌≤◌, min, length, Ok, Err};
ghost use Rattle.config.specs.Limits.{max_bytes};
ghost use Rattle.resp3_prefix.specs.Begun.{lacking, lacking_row, lacking_below, crlf_begun, count_end, count_begun, line_begun, blob_begun};
ghost use Rattle.resp3_prefix.specs.Begun.{string_begun, one_begun, verbatim_body, verbatim_digits, verbatim_begun, digits_of, minus_of};
ghost use Rattle.resp3_prefix.specs.Begun.{integer_begun, boolean_begun, alone_of, row_of, kind_begun, null_begun, head_begun, begun_then, row_begun, within, first_value};

use resp3::Kind;

// Why no whole value stands there.
// Kept: it is the error of a Result itself; C is told the two apart by its verdicts.
#[derive(Clone, Copy, PartialEq, Eq, Debug)]
pub enum NotWhole {
    // The bytes end inside it, and at least so many are lacking.
    Lacks(usize),
    // No value begins so.
    Never,
}

// Where a value stands whole, its end is answered: the place after its last byte. Of its beginning alone, how many values are inside it, and where the first
// of them stands (or, with none, where it ends).

// How far a number and its CR LF stand in the bytes.
// Kept: five cases, two of which say how far the digits stand: neither Option nor Result has them.
#[derive(Drop)]
enum Count {
    // The number, and the place after its LF.
    Whole(u64, usize),
    // The bytes end before its first digit.
    Nothing,
    // They end behind digits of this value.
    Digits(u64),
    // They end behind these digits and CR.
    Ended(u64),
    // No number begins so.
    Never,
}

// So many bytes are lacking.
fn lacking(k: usize) -> Result<usize, NotWhole>
    ensures { result ≡ lacking k }
{
    if k <= config::MAX_BYTES {
        Err(NotWhole::Lacks(k))
    } else {
        Err(NotWhole::Never)
    }
}

// So many bytes, and n values behind them.
fn lacking_row(k: usize, n: u64) -> Result<usize, NotWhole>
    ensures { result ≡ lacking_row k n }
{
    if k > config::MAX_BYTES {
        return Err(NotWhole::Never);
    }
    if n > config::MAX_BYTES as u64 {
        return Err(NotWhole::Never);
    }
    lacking(k + 3 * n as usize)
}

// The same before values that nest at most depth deep.
fn lacking_below(depth: usize, k: usize, n: u64) -> Result<usize, NotWhole>
    ensures { result ≡ lacking_below depth k n }
{
    if n == 0 {
        return Err(NotWhole::Lacks(k));
    }
    if depth == 0 {
        return Err(NotWhole::Never);
    }
    lacking_row(k, n)
}

// CR LF.
fn crlf_begun(s: &[u8], i: usize) -> Result<usize, NotWhole>
    requires { (length s.now ≤ max_bytes) × (i ≤ max_bytes + max_bytes) }
    ensures { result ≡ crlf_begun s.now i }
{
    let n = s.len();
    if n <= i {
        return Err(NotWhole::Lacks(i + 2 - n));
    }
    if s[i] != 13 {
        return Err(NotWhole::Never);
    }
    if n <= i + 1 {
        return Err(NotWhole::Lacks(1));
    }
    if s[i + 1] == 10 {
        Ok(i + 2)
    } else {
        Err(NotWhole::Never)
    }
}

// The CR LF behind a number.
fn count_end(s: &[u8], i: usize, v: u64) -> Count
    requires { (length s.now ≤ max_bytes) × (i ≤ max_bytes) }
    ensures { result ≡ count_end s.now i v }
{
    let n = s.len();
    if n <= i {
        return Count::Digits(v);
    }
    if s[i] != 13 {
        return Count::Never;
    }
    if n <= i + 1 {
        return Count::Ended(v);
    }
    if s[i + 1] == 10 {
        Count::Whole(v, i + 2)
    } else {
        Count::Never
    }
}

// A number of at most lim: no plus sign, no leading zero, CR LF behind it.
fn count_begun(s: &[u8], at: usize, lim: u64) -> Count
    requires { length s.now ≤ max_bytes }
    ensures { result ≡ count_begun lim s.now at }
{
    if at >= s.len() {
        return Count::Nothing;
    }
    match decimal::digits_at(s, at, lim) {
        Some((v, e)) => count_end(s, e, v),
        None => Count::Never,
    }
}

// A line.
fn line_begun(s: &[u8], at: usize) -> Result<usize, NotWhole>
    requires { (length s.now ≤ max_bytes) × (at ≤ length s.now) }
    ensures { result ≡ line_begun s.now at }
{
    crlf_begun(s, resp3::plain_end(s, at))
}

// A length, as many bytes, CR LF.
fn blob_begun(s: &[u8], at: usize) -> Result<usize, NotWhole>
    requires { length s.now ≤ max_bytes }
    ensures { result ≡ blob_begun s.now at }
{
    match count_begun(s, at, config::MAX_BYTES as u64) {
        Count::Whole(n, e) => crlf_begun(s, e + n as usize),
        Count::Nothing => Err(NotWhole::Lacks(5)),
        Count::Digits(m) => Err(NotWhole::Lacks(m as usize + 4)),
        Count::Ended(m) => Err(NotWhole::Lacks(m as usize + 3)),
        Count::Never => Err(NotWhole::Never),
    }
}

// The same behind `$`: where its length has not begun, RESP2's null is the shortest.
fn string_begun(s: &[u8], at: usize) -> Result<usize, NotWhole>
    requires { length s.now ≤ max_bytes }
    ensures { result ≡ string_begun s.now at }
{
    if at >= s.len() {
        return Err(NotWhole::Lacks(4));
    }
    blob_begun(s, at)
}

// The rest of that null behind its minus: 1, CR LF.
fn one_begun(s: &[u8], at: usize) -> Result<usize, NotWhole>
    requires { length s.now ≤ max_bytes }
    ensures { result ≡ one_begun s.now at }
{
    if at >= s.len() {
        return Err(NotWhole::Lacks(3));
    }
    if s[at] != b'1' {
        return Err(NotWhole::Never);
    }
    crlf_begun(s, at + 1)
}

// The bytes of a verbatim string of length n: at least four, the fourth a colon; CR LF.
fn verbatim_body(s: &[u8], n: u64, e: usize) -> Result<usize, NotWhole>
    requires { (length s.now ≤ max_bytes) × (n ≤ max_bytes) × (e ≤ length s.now) }
    ensures { result ≡ verbatim_body s.now n e }
{
    if n < 4 {
        return Err(NotWhole::Never);
    }
    if s.len() <= e + 3 {
        return crlf_begun(s, e + n as usize);
    }
    if s[e + 3] != b':' {
        return Err(NotWhole::Never);
    }
    crlf_begun(s, e + n as usize)
}

// A verbatim string of whose length digits of value m stand there.
fn verbatim_digits(m: u64) -> Result<usize, NotWhole>
    requires { m ≤ max_bytes }
    ensures { result ≡ verbatim_digits m }
{
    if m >= 4 {
        return Err(NotWhole::Lacks(m as usize + 4));
    }
    if m == 0 {
        return Err(NotWhole::Never);
    }
    Err(NotWhole::Lacks(10 * m as usize + 5))
}

// A verbatim string.
fn verbatim_begun(s: &[u8], at: usize) -> Result<usize, NotWhole>
    requires { length s.now ≤ max_bytes }
    ensures { result ≡ verbatim_begun s.now at }
{
    match count_begun(s, at, config::MAX_BYTES as u64) {
        Count::Whole(n, e) => verbatim_body(s, n, e),
        Count::Nothing => Err(NotWhole::Lacks(9)),
        Count::Digits(m) => verbatim_digits(m),
        Count::Ended(m) => {
            if m >= 4 {
                Err(NotWhole::Lacks(m as usize + 3))
            } else {
                Err(NotWhole::Never)
            }
        }
        Count::Never => Err(NotWhole::Never),
    }
}

// An integer without a minus.
fn digits_of(c: Count) -> Result<usize, NotWhole>
    ensures { result ≡ digits_of c }
{
    match c {
        Count::Whole(_, e) => Ok(e),
        Count::Nothing => Err(NotWhole::Lacks(3)),
        Count::Digits(_) => Err(NotWhole::Lacks(2)),
        Count::Ended(_) => Err(NotWhole::Lacks(1)),
        Count::Never => Err(NotWhole::Never),
    }
}

// What stands behind a minus: no 0.
fn minus_of(c: Count) -> Result<usize, NotWhole>
    ensures { result ≡ minus_of c }
{
    match c {
        Count::Whole(n, e) => { if n == 0 { Err(NotWhole::Never) } else { Ok(e) } }
        Count::Nothing => Err(NotWhole::Lacks(3)),
        Count::Digits(m) => {
            if m == 0 {
                Err(NotWhole::Never)
            } else {
                Err(NotWhole::Lacks(2))
            }
        }
        Count::Ended(m) => {
            if m == 0 {
                Err(NotWhole::Never)
            } else {
                Err(NotWhole::Lacks(1))
            }
        }
        Count::Never => Err(NotWhole::Never),
    }
}

// An integer of 64 bits, CR LF.
fn integer_begun(s: &[u8], at: usize) -> Result<usize, NotWhole>
    requires { length s.now ≤ max_bytes }
    ensures { result ≡ integer_begun s.now at }
{
    if at >= s.len() {
        return Err(NotWhole::Lacks(3));
    }
    if s[at] == b'-' {
        return minus_of(count_begun(s, at + 1, 9223372036854775808));
    }
    digits_of(count_begun(s, at, 9223372036854775807))
}

// t or f, CR LF.
fn boolean_begun(s: &[u8], at: usize) -> Result<usize, NotWhole>
    requires { length s.now ≤ max_bytes }
    ensures { result ≡ boolean_begun s.now at }
{
    if at >= s.len() {
        return Err(NotWhole::Lacks(3));
    }
    match s[at] {
        b't' | b'f' => crlf_begun(s, at + 1),
        _ => Err(NotWhole::Never),
    }
}

// A value with none inside it.
fn alone(end: Result<usize, NotWhole>) -> Result<(u64, usize), NotWhole>
    ensures { result ≡ alone_of end }
{
    end.map(|e| (0, e))
}

// Values behind a count n: per * n of them and more, each nesting at most depth deep.
fn row_begun(
    s: &[u8],
    at: usize,
    depth: usize,
    per: u64,
    more: u64,
) -> Result<(u64, usize), NotWhole>
    requires { (length s.now ≤ max_bytes) × (per ≤ 2) × (more ≤ 1) }
    ensures { result ≡ row_of depth per more (count_begun max_bytes s.now at) }
{
    match count_begun(s, at, config::MAX_BYTES as u64) {
        Count::Whole(n, e) => Ok((per * n + more, e)),
        Count::Nothing => alone(lacking_below(depth, 3, more)),
        Count::Digits(m) => alone(lacking_below(depth, 2, per * m + more)),
        Count::Ended(m) => alone(lacking_below(depth, 1, per * m + more)),
        Count::Never => Err(NotWhole::Never),
    }
}

// What stands at `at`, up to the first value inside it, which nests at most depth deep, by the kind of its first byte.
fn kind_begun(s: &[u8], at: usize, depth: usize) -> Result<(u64, usize), NotWhole>
    requires { length s.now ≤ max_bytes }
    ensures { result ≡ kind_begun depth s.now at }
{
    if at >= s.len() {
        return Err(NotWhole::Lacks(3));
    }
    let p = at + 1;
    match Kind::from(s[at]) {
        Kind::BlobString => alone(string_begun(s, p)),
        Kind::SimpleString => alone(line_begun(s, p)),
        Kind::SimpleError => alone(line_begun(s, p)),
        Kind::Number => alone(integer_begun(s, p)),
        Kind::Null => alone(crlf_begun(s, p)),
        Kind::Double => alone(line_begun(s, p)),
        Kind::Boolean => alone(boolean_begun(s, p)),
        Kind::BlobError => alone(blob_begun(s, p)),
        Kind::VerbatimString => alone(verbatim_begun(s, p)),
        Kind::BigNumber => alone(line_begun(s, p)),
        Kind::Array => row_begun(s, p, depth, 1, 0),
        Kind::Map => row_begun(s, p, depth, 2, 0),
        Kind::Set => row_begun(s, p, depth, 1, 0),
        Kind::Attribute => row_begun(s, p, depth, 2, 1),
        Kind::Push => row_begun(s, p, depth, 1, 0),
        Kind::Unknown => Err(NotWhole::Never),
    }
}

// A null of RESP2's, which an old server sends.
fn null_begun(s: &[u8], at: usize) -> Result<(u64, usize), NotWhole>
    requires { length s.now ≤ max_bytes }
    ensures { result ≡ null_begun s.now at }
{
    if resp3::null_word_at(s, at) {
        return alone(one_begun(s, at + 2));
    }
    Err(NotWhole::Never)
}

// Either of the two. By the kind of their first byte those nulls have a length or a count that is none, so that no other value pays for a look at them.
fn head_begun(s: &[u8], at: usize, depth: usize) -> Result<(u64, usize), NotWhole>
    requires { length s.now ≤ max_bytes }
    ensures { result ≡ head_begun depth s.now at }
{
    match kind_begun(s, at, depth) {
        Ok(head) => Ok(head),
        Err(NotWhole::Lacks(k)) => Err(NotWhole::Lacks(k)),
        Err(NotWhole::Never) => null_begun(s, at),
    }
}

// A value is not whole, and n others were to stand behind it.
fn lacking_before(why: NotWhole, n: u64) -> Result<usize, NotWhole>
    ensures { result ≡ begun_then (Err why) n (λ e. Ok e) }
{
    match why {
        NotWhole::Lacks(k) => lacking_row(k, n),
        NotWhole::Never => Err(why),
    }
}

// n values from `at` on, each nesting at most depth deep. Only a value with others inside it asks again, for those.
fn values_begun(s: &[u8], at: usize, depth: usize, n: u64) -> Result<usize, NotWhole>
    requires { length s.now ≤ max_bytes }
    ensures { result ≡ row_begun depth s.now n at }
{
    let mut q = at;
    for left in (0..n).rev() {
        if depth == 0 {
            return Err(NotWhole::Never);
        }
        match head_begun(s, q, depth - 1) {
            Ok((0, e)) => {
                q = e;
            }
            Ok((m, e)) => match values_begun(s, e, depth - 1, m) {
                Ok(x) => {
                    q = x;
                }
                Err(why) => {
                    return lacking_before(why, left);
                }
            },
            Err(why) => {
                return lacking_before(why, left);
            }
        }
    }
    Ok(q)
}

// The limit of bytes, where n were received.
fn within(n: usize, x: Result<usize, NotWhole>) -> Result<usize, NotWhole>
    ensures { result ≡ within n x }
{
    let Err(why) = x else {
        return x;
    };
    match why {
        NotWhole::Lacks(k) => {
            if k > config::MAX_BYTES {
                return Err(NotWhole::Never);
            }
            if n <= config::MAX_BYTES - k {
                x
            } else {
                Err(NotWhole::Never)
            }
        }
        NotWhole::Never => Err(NotWhole::Never),
    }
}

// Of bytes received so far, how far the first value stands in them, of at most 16 MiB and 16 levels.
pub fn first_value(s: &[u8]) -> Result<usize, NotWhole>
    ensures { result ≡ first_value s.now }
{
    let n = s.len();
    let end = n.min(config::MAX_BYTES);
    within(n, values_begun(&s[..end], 0, config::MAX_DEPTH, 1))
}
