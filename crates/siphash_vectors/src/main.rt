// Writes length, hash and shard of 32 of each key that vectors.rs hashes with Rust's `DefaultHasher`: lengths 0 to 72, and some long
// ones. The file stdout, which it has to match, is what vectors.rs wrote.
#![tactic(auto)]

ghost use Rattle.std.specs.Prelude.{◌≤◌, length};

use std::io::{self, BufWriter, Write};

// Byte i of a key is (31 i + 7) modulo 256.
fn fill(s: &mut [u8]) {
    let mut b: u8 = 7;
    for x in s.iter_mut() {
        *x = b;
        b = b.wrapping_add(31);
    }
}

// The line of the first n bytes.
fn line<W: Write>(to: &mut W, s: &[u8], n: usize) -> io::Result<()>
    requires { n ≤ length s.now }
{
    let key = &s[..n];
    let hash = siphash::sip_hash_13(key);
    let shard = siphash::shard_of(key, 32);
    writeln!(to, "{n} {hash:016x} {shard}")
}

// The lines of every length up to 72.
fn short_lines<W: Write>(to: &mut W, s: &[u8]) -> io::Result<()>
    requires { 65536 ≤ length s.now }
{
    for n in 0..73 {
        line(to, s, n)?;
    }
    Ok(())
}

// The lines of some long keys.
fn long_lines<W: Write>(to: &mut W, s: &[u8]) -> io::Result<()>
    requires { 65536 ≤ length s.now }
{
    line(to, s, 255)?;
    line(to, s, 256)?;
    line(to, s, 257)?;
    line(to, s, 1000)?;
    line(to, s, 4096)?;
    line(to, s, 65535)
}

fn main(rt: HostRuntime) -> io::Result<()> {
    let mut s = [0; 65536];
    fill(&mut s);
    let mut out = BufWriter::new(rt.alloc(), io::writer(&rt))?;
    short_lines(&mut out, &s)?;
    long_lines(&mut out, &s)?;
    out.flush()
}
