// The call record: the check, which answers the first wrong offset. What a record is stands in specs/Record.antt, what the offset means in
// specs/Offset.antt, with the theorems in specs/Check.antt. Each function here goes by the format of the same name.
#![tactic(auto)]

ghost use Rattle.std.specs.Prelude.{◌≡◌, ℕ, ◌+◌, ◌≤◌, ◌<◌, Result, length};
ghost use Rattle.format.specs.declared.Wrong.{Wrong};
ghost use Rattle.format.specs.Skips.{skip_end};
ghost use Rattle.format.specs.Places.{number_end, word_end};
ghost use Rattle.call_record.specs.Formats.{flags_b, text_max};
ghost use Rattle.call_record.specs.Check.{check_def};
ghost use Rattle.call_record.specs.Paths.{byte_at, Finds, many, text_end, argument_end};
ghost use Rattle.call_record.specs.CommandPaths.{ttl_end, rest_end, command_end, tail_end, record_end};

use format::Wrong;

// The byte at a place.
fn byte_at(s: &[u8], at: usize) -> Result<u8, Wrong>
    ensures { result ≡ byte_at s.now at }
{
    if at < s.len() {
        Ok(s[at])
    } else {
        Err(Wrong { at: s.len() })
    }
}

// A number of w bytes, the lowest first, that is at most max. A byte is wrong where the bytes up to it make more.
fn number_end(s: &[u8], at: usize, w: usize, max: usize) -> Result<usize, Wrong>
    requires { at ≤ length s.now }
    ensures { result ≡ number_end w max s.now at }
{
    let mut room = max;
    for k in 0..w {
        let i = at + k;
        let b = usize::from(byte_at(s, i)?);
        if b > room {
            return Err(Wrong { at: i });
        }
        room = (room - b) / 256;
    }
    Ok(at + w)
}

// The given bytes.
fn word_end(s: &[u8], at: usize, word: &[u8]) -> Result<usize, Wrong>
    requires { at ≤ length s.now }
    ensures { result ≡ word_end word.now s.now at }
{
    for k in 0..word.len() {
        let i = at + k;
        if byte_at(s, i)? != word[k] {
            return Err(Wrong { at: i });
        }
    }
    Ok(at + word.len())
}

// Any n bytes.
fn skip_end(len: usize, at: usize, n: usize) -> Result<usize, Wrong>
    requires { at ≤ len }
    ensures { result ≡ skip_end len at n }
{
    if n <= len - at {
        Ok(at + n)
    } else {
        Err(Wrong { at: len })
    }
}

// n of a kind, one behind the other, where `end` finds the end of one.
fn many_end<F: Fn(usize) -> Result<usize, Wrong>>(
    at: usize,
    n: usize,
    end: F,
) -> Result<usize, Wrong>
    requires { (m : ℕ) × (one : ℕ → Result ℕ Wrong) × (at ≤ m) × Finds (F.pre end) (F.post end) m one }
    ensures { (m : ℕ) (one : ℕ → Result ℕ Wrong) → at ≤ m → Finds (F.pre end) (F.post end) m one → result ≡ many one n at }
{
    let mut i = at;
    for _ in 0..n {
        i = end(i)?;
    }
    Ok(i)
}

// How long an argument's bytes may be: a cursor has none.
fn text_max(simple: bool) -> usize
    ensures { result ≡ text_max simple }
{
    if simple { config::MAX_ARGUMENT } else { 0 }
}

// An argument's length and bytes.
fn text_end(s: &[u8], at: usize, simple: bool) -> Result<usize, Wrong>
    requires { at ≤ length s.now }
    ensures { result ≡ text_end simple s.now at }
{
    let e = number_end(s, at, 4, text_max(simple))?;
    skip_end(s.len(), e, buffer::read_u32(s, at) as usize)
}

// An argument.
fn argument_end(s: &[u8], at: usize) -> Result<usize, Wrong>
    requires { at ≤ length s.now }
    ensures { result ≡ argument_end s.now at }
{
    let kind = byte_at(s, at)?;
    if kind >= 2 {
        return Err(Wrong { at });
    }
    text_end(s, at + 1, kind == 0)
}

// A command's flags: bits 0 to 3; bits 2 and 3 need bit 1.
fn flags_ok(f: u8) -> bool
    ensures { result ≡ flags_b f }
{
    if f > 15 {
        return false;
    }
    if f / 2 % 2 == 1 {
        return true;
    }
    f <= 3
}

// A command's TTL: eight bytes, zeros where it has none.
fn ttl_end(s: &[u8], at: usize, present: bool) -> Result<usize, Wrong>
    requires { at ≤ length s.now }
    ensures { result ≡ ttl_end present s.now at }
{
    if present {
        return skip_end(s.len(), at, 8);
    }
    number_end(s, at, 8, 0)
}

// A command's cursor and arguments.
fn rest_end(s: &[u8], at: usize) -> Result<usize, Wrong>
    requires { at ≤ length s.now }
    ensures { result ≡ rest_end s.now at }
{
    let next = skip_end(s.len(), at, 8)?;
    let e = number_end(s, next, 2, config::MAX_ARGUMENTS)?;
    let n = usize::from(buffer::read_u16(s, next));
    many_end(e, n, |i| argument_end(s, i))
}

// A command.
fn command_end(s: &[u8], at: usize) -> Result<usize, Wrong>
    requires { at ≤ length s.now }
    ensures { result ≡ command_end s.now at }
{
    let f = byte_at(s, at)?;
    if flags_ok(f) {
        let e = ttl_end(s, at + 1, f / 8 % 2 == 1)?;
        rest_end(s, e)
    } else {
        Err(Wrong { at })
    }
}

// The record's flags and commands.
fn tail_end(s: &[u8], at: usize) -> Result<usize, Wrong>
    requires { at ≤ length s.now }
    ensures { result ≡ tail_end s.now at }
{
    let flags = byte_at(s, at)?;
    let next = at + 1;
    if flags >= 2 {
        return Err(Wrong { at });
    }
    let e = number_end(s, next, 2, config::MAX_COMMANDS)?;
    let n = usize::from(buffer::read_u16(s, next));
    many_end(e, n, |i| command_end(s, i))
}

// The mark, the version and what follows.
fn record_end(s: &[u8]) -> Result<usize, Wrong>
    ensures { result ≡ record_end s.now }
{
    let e = word_end(s, 0, b"TRP\x01\x00")?;
    tail_end(s, e)
}

// Whether the bytes are a call record; if not, the offset at which they go wrong.
pub fn check(bytes: &[u8]) -> Result<(), Wrong>
    ensures { result ≡ check_def bytes.now }
{
    let e = record_end(bytes)?;
    if e < bytes.len() {
        Err(Wrong { at: e })
    } else {
        Ok(())
    }
}
