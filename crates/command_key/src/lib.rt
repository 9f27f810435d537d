// Command keys: a value that says how a command key's bytes are gathered from a source, since they stand nowhere in one piece. Length,
// comparison and copy are each one function over it; specs/Key.antt says which bytes it stands for.
#![tactic(auto)]

ghost use Rattle.std.specs.Prelude.{◌≡◌, ◌++◌, ◌+◌, ◌≤◌, length};
ghost use Rattle.buffer.specs.Same.{same};
ghost use Rattle.buffer.specs.Part.{part, put};
ghost use Rattle.cursor.specs.At.{range_bytes, RangeIn, args_of, ArgsHere};
ghost use Rattle.config.specs.Limits.{max_bytes};
ghost use Rattle.command_key.specs.Key.{command_key, name_bytes, key_bytes, KeyIn};

use cursor::{Args, Range};

#[derive(Clone, Copy)]
pub enum CommandKey {
    // A range of the source.
    Part(Range),
    // The simple arguments before the cursor, joined.
    Joined(Args),
    // `JSON.GET` or `GET`, a key and a path.
    Named(bool, Range, Range),
}

// How long the arguments are when joined.
fn joined_len(s: &[u8], k: Args) -> usize
    requires { ArgsHere s.now k }
    ensures { result ≡ length (command_key (args_of s.now k)) }
{
    let mut total = 0;
    for arg in cursor::args_iter(s, k) {
        total += cursor::own_bytes(s, arg).len();
    }
    total
}

// The arguments joined, copied to dst at `to`.
fn joined_copy(s: &[u8], k: Args, dst: &mut [u8], to: usize)
    requires { ArgsHere s.now k × (to + length (command_key (args_of s.now k)) ≤ length dst.old) }
    ensures { dst.new ≡ put dst.old to (command_key (args_of s.now k)) }
{
    let mut next = to;
    for arg in cursor::args_iter(s, k) {
        let text = cursor::own_bytes(s, arg);
        buffer::copy_to(dst, next, text);
        next += text.len();
    }
}

// Whether t is the arguments joined.
fn joined_same(s: &[u8], k: Args, t: &[u8]) -> bool
    requires { ArgsHere s.now k }
    ensures { result ≡ same t.now (command_key (args_of s.now k)) }
{
    let mut done = 0;
    for arg in cursor::args_iter(s, k) {
        let text = cursor::own_bytes(s, arg);
        if text.len() > t.len() - done {
            return false;
        }
        if !buffer::same_at(t, done, text) {
            return false;
        }
        done += text.len();
    }
    done == t.len()
}

// How long the name is.
fn name_len(json: bool) -> usize
    ensures { result ≡ length (name_bytes json) }
{
    if json { 8 } else { 3 }
}

// How long the command key is.
pub fn key_len(s: &[u8], key: CommandKey) -> usize
    requires { KeyIn s.now key }
    ensures { result ≡ length (key_bytes s.now key) }
{
    match key {
        CommandKey::Part(g) => g.end - g.start,
        CommandKey::Joined(k) => joined_len(s, k),
        CommandKey::Named(json, g, p) => name_len(json) + (g.end - g.start) + (p.end - p.start),
    }
}

// Whether t begins with the name.
fn name_same(t: &[u8], json: bool) -> bool
    requires { length (name_bytes json) ≤ length t.now }
    ensures { result ≡ same (part t.now 0 (length (name_bytes json))) (name_bytes json) }
{
    if json {
        buffer::same_at(t, 0, b"JSON.GET")
    } else {
        buffer::same_at(t, 0, b"GET")
    }
}

// Whether t is the name, the key and the path.
fn named_same(s: &[u8], json: bool, g: Range, p: Range, t: &[u8]) -> bool
    requires { RangeIn s.now g × RangeIn s.now p × (length s.now ≤ max_bytes) }
    ensures { result ≡ same t.now (name_bytes json ++ (range_bytes s.now g ++ range_bytes s.now p)) }
{
    let a = g.start;
    let b = g.end;
    let c = p.start;
    let d = p.end;
    let n = name_len(json);
    let m = n + (b - a);
    if t.len() != m + (d - c) {
        return false;
    }
    if name_same(t, json) {
        if buffer::same_at(t, n, &s[a..b]) {
            return buffer::same_at(t, m, &s[c..d]);
        }
    }
    false
}

// Whether t is the command key.
pub fn key_same(s: &[u8], key: CommandKey, t: &[u8]) -> bool
    requires { KeyIn s.now key }
    ensures { result ≡ same t.now (key_bytes s.now key) }
{
    match key {
        CommandKey::Part(g) => buffer::same(t, cursor::bytes_in(s, g)),
        CommandKey::Joined(k) => joined_same(s, k, t),
        CommandKey::Named(json, g, p) => named_same(s, json, g, p, t),
    }
}

// The name, copied to dst at `to`.
fn name_copy(json: bool, dst: &mut [u8], to: usize)
    requires { to + length (name_bytes json) ≤ length dst.old }
    ensures { dst.new ≡ put dst.old to (name_bytes json) }
{
    if json {
        buffer::copy_to(dst, to, b"JSON.GET");
    } else {
        buffer::copy_to(dst, to, b"GET");
    }
}

// The name, the key and the path, copied to dst at `to`.
fn named_copy(s: &[u8], json: bool, g: Range, p: Range, dst: &mut [u8], to: usize)
    requires { RangeIn s.now g × RangeIn s.now p × (to + length (name_bytes json ++ (range_bytes s.now g ++ range_bytes s.now p)) ≤ length dst.old) }
    ensures { dst.new ≡ put dst.old to (name_bytes json ++ (range_bytes s.now g ++ range_bytes s.now p)) }
{
    let a = g.start;
    let b = g.end;
    let c = p.start;
    let d = p.end;
    name_copy(json, dst, to);
    let key = to + name_len(json);
    buffer::copy_to(dst, key, &s[a..b]);
    let path = key + (b - a);
    buffer::copy_to(dst, path, &s[c..d]);
}

// The command key, copied to dst at `to`.
pub fn key_copy(s: &[u8], key: CommandKey, dst: &mut [u8], to: usize)
    requires { KeyIn s.now key × (to + length (key_bytes s.now key) ≤ length dst.old) }
    ensures { dst.new ≡ put dst.old to (key_bytes s.now key) }
{
    match key {
        CommandKey::Part(g) => {
            let a = g.start;
            let e = g.end;
            buffer::copy_to(dst, to, &s[a..e]);
        }
        CommandKey::Joined(k) => {
            joined_copy(s, k, dst, to);
        }
        CommandKey::Named(json, g, p) => {
            named_copy(s, json, g, p, dst, to);
        }
    }
}
