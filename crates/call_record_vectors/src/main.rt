// Call records, damaged ones among them. For each line of the input, which is bytes in hexadecimal digits: the offset at which they are no record; or the
// record's commands as the cursors hand them out, each with its arguments 0 and 1, its joined command key and its packed bytes.
// Input and expected output are made by vectors.py, from the scope document alone.
#![tactic(auto)]

ghost use Rattle.std.specs.Prelude.{◌≤◌, ◌<◌, IfSome};
ghost use Rattle.cursor.specs.At.{RangeIn, ArgsHere, CommandsHere};

use command_key::CommandKey;
use cursor::{Arg, Args, Commands, Head, Range};
use std::io::{self, BufWriter, Read, Write};

// The most bytes that are read.
const MAX_INPUT: u64 = 65_536;

// The most bytes that a line is to spell, and that are shown of a command key or a packed command.
const MAX_SHOWN: usize = 4096;

// Whether a byte is written as it stands.
fn plain(b: u8) -> bool {
    match b {
        92 => false,
        32..=126 => true,
        _ => false,
    }
}

// Bytes in brackets, those that are no plain characters as \ and two hexadecimal digits.
fn put_text<W: Write>(to: &mut W, s: &[u8]) -> io::Result<()> {
    to.write_all(b"[")?;
    for b in s {
        if plain(*b) {
            to.write_all(&[*b])?;
        } else {
            write!(to, "\\{b:02x}")?;
        }
    }
    to.write_all(b"]")
}

fn put_range<W: Write>(to: &mut W, s: &[u8], g: Range) -> io::Result<()>
    requires { RangeIn s.now g }
{
    put_text(to, cursor::bytes_in(s, g))
}

// The arguments that a cursor over them has before it.
fn put_arguments<W: Write>(to: &mut W, s: &[u8], first: Args) -> io::Result<()>
    requires { ArgsHere s.now first }
{
    to.write_all(b", arguments")?;
    for arg in cursor::args_iter(s, first) {
        match arg {
            Arg::Simple(g) => {
                to.write_all(b" ")?;
                put_range(to, s, g)?;
            }
            Arg::Cursor => to.write_all(b" cursor")?,
        }
    }
    Ok(())
}

// Argument idx, where it is there.
fn put_index<W: Write>(to: &mut W, s: &[u8], args: Args, idx: usize) -> io::Result<()>
    requires { ArgsHere s.now args }
{
    write!(to, " {idx}:")?;
    match cursor::arg_idx(s, args, idx) {
        None => to.write_all(b" none"),
        Some(g) => {
            to.write_all(b" ")?;
            put_range(to, s, g)
        }
    }
}

// The first n bytes of a buffer.
fn put_front<W: Write>(to: &mut W, out: &[u8], n: usize) -> io::Result<()> {
    if n <= out.len() {
        put_range(to, out, Range { start: 0, end: n })?;
    }
    Ok(())
}

// The command key of a command with one key.
fn put_key<W: Write>(to: &mut W, s: &[u8], args: Args) -> io::Result<()>
    requires { ArgsHere s.now args }
{
    to.write_all(b"\n    key ")?;
    let mut out = [0; MAX_SHOWN];
    let key = CommandKey::Joined(args);
    let n = command_key::key_len(s, key);
    if n <= out.len() {
        command_key::key_copy(s, key, &mut out, 0);
        put_front(to, &out, n)?;
    }
    Ok(())
}

// The command as it is sent.
fn put_packed<W: Write>(to: &mut W, s: &[u8], args: Args, cursor: u64) -> io::Result<()>
    requires { ArgsHere s.now args }
{
    if s.len() > config::MAX_BYTES {
        return Ok(());
    }
    if args.left > config::MAX_ARGUMENTS {
        return Ok(());
    }
    let mut out = [0; MAX_SHOWN];
    let n = cmd::args_len(s, args, cursor);
    write!(to, "\n    packed in {n}: ")?;
    if n <= out.len() {
        let e = cmd::write_command(s, args, cursor, &mut out, 0);
        put_front(to, &out, e)?;
    }
    Ok(())
}

// A command's fields.
fn put_head<W: Write>(to: &mut W, h: Head) -> io::Result<()> {
    let Head {
        flags,
        ttl,
        cursor,
        ..
    } = h;
    write!(to, "  flags {flags}, ttl {ttl}, cursor {cursor}")
}

fn put_command<W: Write>(to: &mut W, s: &[u8], h: Head) -> io::Result<()>
    requires { ArgsHere s.now h.args }
{
    let args = h.args;
    put_head(to, h)?;
    put_arguments(to, s, args)?;
    to.write_all(b"\n    by number")?;
    put_index(to, s, args, 0)?;
    put_index(to, s, args, 1)?;
    put_key(to, s, args)?;
    put_packed(to, s, args, h.cursor)?;
    to.write_all(b"\n")
}

fn put_commands<W: Write>(to: &mut W, s: &[u8], first: Commands) -> io::Result<()>
    requires { CommandsHere s.now first }
{
    let mut k = first;
    while let Some((h, rest)) = cursor::next_command(s, k) {
        put_command(to, s, h)?;
        k = rest;
    }
    Ok(())
}

// What the bytes are found to be.
fn show<W: Write>(to: &mut W, s: &[u8]) -> io::Result<()> {
    match call_record::check(s) {
        Err(wrong) => {
            let at = wrong.at;
            writeln!(to, "wrong at {at}")
        }
        Ok(()) => {
            let k = cursor::commands_of(s);
            to.write_all(b"fine")?;
            if cursor::is_transaction(s) {
                to.write_all(b", a transaction")?;
            }
            let n = k.left;
            writeln!(to, ", commands {n}")?;
            put_commands(to, s, k)
        }
    }
}

// A hexadecimal digit's value.
fn digit(b: u8) -> Option<u8>
    ensures { IfSome result (λ n. n < 16) }
{
    match b {
        48..=57 => Some(b - 48),
        97..=102 => Some(b - 87),
        _ => None,
    }
}

// The byte that two digits spell.
fn byte(digits: &[u8]) -> Option<u8> {
    match digits {
        [high, low] => Some(digit(*high)? * 16 + digit(*low)?),
        _ => None,
    }
}

// The bytes that a line's digits spell, up to the first byte that is no digit: how many they are.
fn unhex(line: &[u8], out: &mut [u8]) -> usize {
    let mut n = 0;
    for (digits, place) in line.chunks(2).zip(out) {
        match byte(digits) {
            Some(b) => *place = b,
            None => return n,
        }
        n += 1;
    }
    n
}

// The bytes that the first n of a buffer are.
fn show_front<W: Write>(to: &mut W, out: &[u8], n: usize) -> io::Result<()> {
    if n <= out.len() {
        show(to, cursor::bytes_in(out, Range { start: 0, end: n }))?;
    }
    Ok(())
}

// The bytes that a line spells.
fn show_line<W: Write>(to: &mut W, line: &[u8]) -> io::Result<()> {
    let mut out = [0; MAX_SHOWN];
    let n = unhex(line, &mut out);
    show_front(to, &out, n)
}

fn show_lines<W: Write>(to: &mut W, s: &[u8]) -> io::Result<()> {
    let mut at = 0;
    // Kept: no plainer as a `for`: behind the last line feed `split` has one piece more, which is no line.
    while at < s.len() {
        let end = vectors_lines::line_end(s, at);
        show_line(to, &s[at..end])?;
        if end == s.len() {
            break;
        }
        at = end + 1;
    }
    Ok(())
}

fn main(rt: HostRuntime) -> io::Result<()> {
    let mut input = Vec::new(rt.alloc());
    rt.reader().take(MAX_INPUT).read_to_end(&mut input)?;
    let mut out = BufWriter::new(rt.alloc(), io::writer(&rt))?;
    show_lines(&mut out, input.as_slice())?;
    out.flush()
}
