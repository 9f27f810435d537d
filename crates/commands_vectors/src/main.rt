// Writes those of the lines of its input that are names of cacheable commands, and behind a command of several keys the one that asks
// for one of them. The input is every name that `command_properties` knows, whatever it says of it, and then near misses.
#![tactic(auto)]

use commands::MultiKey;
use std::io::{self, BufWriter, Read, Write};

// The most bytes that are read.
const MAX_INPUT: u64 = 4096;

// A line of the output, or none.
fn show<W: Write>(to: &mut W, word: &[u8]) -> io::Result<()> {
    if commands::is_cachable_cmd(word) {
        to.write_all(word)?;
        match commands::is_multi_key(word) {
            Some(MultiKey::Mget) => {
                to.write_all(b" GET")?;
            }
            Some(MultiKey::JsonMget) => {
                to.write_all(b" JSON.GET")?;
            }
            None => {}
        }
        to.write_all(b"\n")?;
    }
    Ok(())
}

// A line of the output for each line that has one.
fn show_lines<W: Write>(to: &mut W, s: &[u8]) -> io::Result<()> {
    for line in s.split(|&byte| byte == b'\n') {
        show(to, line)?;
    }
    Ok(())
}

fn main(rt: HostRuntime) -> io::Result<()> {
    let mut input = Vec::new(rt.alloc());
    rt.reader().take(MAX_INPUT).read_to_end(&mut input)?;
    let mut out = BufWriter::new(rt.alloc(), io::writer(&rt))?;
    show_lines(&mut out, input.as_slice())?;
    out.flush()
}
