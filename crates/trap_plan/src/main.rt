// Takes a call record from standard input and writes what planning it sends, on a cache that holds nothing. It writes nothing where planning refuses,
// where the record is longer than 65,536 bytes or what is to be sent is: one byte more is read than a record may have, and no more room is lent than that.
// What it writes is crate trap_send's.
#![tactic(auto)]

use std::io::{self, Read, Write};

// The most bytes that are read.
const MAX_INPUT: u64 = 65_537;

// The most bytes that are written.
const MAX_OUTPUT: usize = 65_536;

fn main(rt: HostRuntime) -> io::Result<()> {
    let mut input = Vec::new(rt.alloc());
    rt.reader().take(MAX_INPUT).read_to_end(&mut input)?;
    let mut out = [0; MAX_OUTPUT];
    match trap_send::send_bytes(input.as_slice(), &mut out) {
        Some(n) => io::writer(&rt).write_all(&out[..n]),
        None => Ok(()),
    }
}
