// Vectors of RESP3, damaged ones among them: writes each line of the input and behind it what the bytes that it spells are found to be. In a line \r is CR,
// \n is LF, and a backslash and another byte are that byte; a line that begins with `/` is a heading. Where the vectors come from is said in
// judges/README.md.
#![tactic(auto)]

ghost use Rattle.resp3.specs.Value.{IsValue};
ghost use Rattle.resp3_vectors.specs.Standing.{Standing};

use resp3::Kind;
use resp3_element::Cursor;
use std::fmt;
use std::io::{self, BufWriter, Read, Write};

// The most bytes that are read.
const MAX_INPUT: u64 = 65_536;

// The most bytes that a line is to spell; what stands behind them is not looked at.
const MAX_SPELLED: usize = 4096;

// A kind, shown by RESP3's name.
#[derive(Clone, Copy)]
struct Name(Kind);

impl fmt::Display for Name {
    fn fmt<W: fmt::Write>(&self, f: &mut fmt::Formatter<W>) -> fmt::Result {
        f.write_str(match self.0 {
            Kind::BlobString => "blob string",
            Kind::SimpleString => "simple string",
            Kind::SimpleError => "simple error",
            Kind::Number => "number",
            Kind::Null => "null",
            Kind::Double => "double",
            Kind::Boolean => "boolean",
            Kind::BlobError => "blob error",
            Kind::VerbatimString => "verbatim string",
            Kind::BigNumber => "big number",
            Kind::Array => "array",
            Kind::Map => "map",
            Kind::Set => "set",
            Kind::Attribute => "attribute",
            Kind::Push => "push",
            Kind::Unknown => "unknown",
        })
    }
}

// The integers of these vectors.
fn put_integer<W: Write>(to: &mut W, z: i64) -> io::Result<()> {
    match z {
        0 | 1234 | 12345 | -1 | -2 | i64::MAX | i64::MIN => write!(to, "{z}"),
        _ => to.write_all(b"another"),
    }
}

// An element: its kind, and how many bytes it takes.
fn put_element<W: Write>(to: &mut W, v: &[u8]) -> io::Result<()> {
    write!(
        to,
        ", {} in {} bytes",
        Name(resp3_element::kind(v)),
        v.len()
    )
}

// The elements from a cursor on.
fn put_elements<W: Write>(to: &mut W, s: &[u8], first: Cursor) -> io::Result<()>
    requires { Standing s.now first }
{
    let mut c = first;
    for _ in 0..first.left {
        put_element(to, resp3_element::element(s, c))?;
        c = resp3_element::next(s, c);
    }
    Ok(())
}

// How many elements there are, and each of them.
fn put_list<W: Write>(to: &mut W, s: &[u8], first: Cursor) -> io::Result<()>
    requires { Standing s.now first }
{
    write!(to, " of {}", first.left)?;
    put_elements(to, s, first)
}

// What a value is.
fn describe<W: Write>(to: &mut W, s: &[u8]) -> io::Result<()>
    requires { IsValue s.now }
{
    let k = resp3_element::kind(s);
    write!(to, "{}", Name(k))?;
    if resp3_element::is_error(s) {
        to.write_all(b", a server error")?;
    }
    if let Some(z) = resp3_element::number(s) {
        to.write_all(b" ")?;
        put_integer(to, z)?;
    }
    if k == Kind::BlobString {
        to.write_all(b" [")?;
        to.write_all(resp3_element::blob(s))?;
        to.write_all(b"]")?;
    }
    if let Some(c) = resp3_element::array(s) {
        put_list(to, s, c)?;
    }
    if let Some(c) = resp3_element::push(s) {
        put_list(to, s, c)?;
    }
    Ok(())
}

// What the bytes are found to be.
fn show<W: Write>(to: &mut W, s: &[u8]) -> io::Result<()> {
    if resp3::is_value(s) {
        describe(to, s)
    } else {
        to.write_all(b"refused")
    }
}

// What the first n bytes of a buffer are found to be.
fn show_front<W: Write>(to: &mut W, out: &[u8], n: usize) -> io::Result<()> {
    if n <= out.len() {
        show(to, &out[..n])?;
    }
    Ok(())
}

// The byte that b stands for: itself, or behind a backslash CR for r and LF for n.
fn spelled(b: u8, behind: bool) -> u8 {
    if behind {
        match b {
            b'r' => 13,
            b'n' => 10,
            _ => b,
        }
    } else {
        b
    }
}

// The bytes that a line spells, as far as the buffer holds them: how many they are.
fn unescape(line: &[u8], out: &mut [u8]) -> usize {
    let mut n = 0;
    let mut behind = false;
    for &b in line {
        if n == out.len() {
            break;
        }
        if b == b'\\' && !behind {
            behind = true;
        } else {
            out[n] = spelled(b, behind);
            behind = false;
            n += 1;
        }
    }
    n
}

// A line of the input, and behind it what its bytes are found to be.
fn show_line<W: Write>(to: &mut W, line: &[u8]) -> io::Result<()> {
    to.write_all(line)?;
    if is_heading(line) {
        return to.write_all(b"\n");
    }
    let mut out = [0; MAX_SPELLED];
    let n = unescape(line, &mut out);
    to.write_all(b" => ")?;
    show_front(to, &out, n)?;
    to.write_all(b"\n")
}

// Whether a line is a heading: it begins with a byte that begins no value.
fn is_heading(line: &[u8]) -> bool {
    line.starts_with(b"/")
}

fn show_lines<W: Write>(to: &mut W, s: &[u8]) -> io::Result<()> {
    let mut at = 0;
    // Kept: no plainer as a `for`: behind the last line feed `split` has one piece more, which is no line.
    while at < s.len() {
        let end = vectors_lines::line_end(s, at);
        show_line(to, &s[at..end])?;
        if end == s.len() {
            break;
        }
        at = end + 1;
    }
    Ok(())
}

fn main(rt: HostRuntime) -> io::Result<()> {
    let mut input = Vec::new(rt.alloc());
    rt.reader().take(MAX_INPUT).read_to_end(&mut input)?;
    let mut out = BufWriter::new(rt.alloc(), io::writer(&rt))?;
    show_lines(&mut out, input.as_slice())?;
    out.flush()
}
