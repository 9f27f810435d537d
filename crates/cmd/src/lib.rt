// Commands packed as RESP3 arrays of blobs (cmd.rs: `args_len`, `write_command`): a command of a record, and the fixed commands. What is packed
// is one RESP3 value, which the reader reads back: specs/Pack.antt. Every writer writes exactly those bytes at the place, leaves the rest
// of the buffer as it was, and answers the place behind them.
#![tactic(auto)]

ghost use Rattle.std.specs.Prelude.{◌≡◌, ℕ, ◌+◌, ◌≤◌, length};
ghost use Rattle.buffer.specs.Part.{put};
ghost use Rattle.config.specs.Limits.{max_bytes, max_arguments};
ghost use Rattle.decimal.specs.Digits.{digits};
ghost use Rattle.cursor.specs.At.{argument_of, PlaceIn, args_of, ArgsHere};
ghost use Rattle.cmd.specs.Pack.{sent, texts, head, blob, blob_bytes, packed, pttl_texts, caching_texts, multi_texts, exec_texts};

use cursor::{Arg, Args};

// A mark, a number and CR LF.
pub fn write_head(dst: &mut [u8], to: usize, mark: u8, n: u64) -> usize
    requires { to + length (head mark n) ≤ length dst.old }
    ensures { (result ≡ to + length (head mark n)) × (dst.new ≡ put dst.old to (head mark n)) }
{
    dst[to] = mark;
    let e = decimal::write_digits(dst, to + 1, n);
    buffer::copy_to(dst, e, b"\r\n");
    e + 2
}

// A blob.
pub fn write_blob(dst: &mut [u8], to: usize, text: &[u8]) -> usize
    requires { to + length (blob text.now) ≤ length dst.old }
    ensures { (result ≡ to + length (blob text.now)) × (dst.new ≡ put dst.old to (blob text.now)) }
{
    let e = write_head(dst, to, b'$', text.len() as u64);
    buffer::copy_to(dst, e, text);
    let f = e + text.len();
    buffer::copy_to(dst, f, b"\r\n");
    f + 2
}

// A number's digits as a blob.
pub fn write_number(dst: &mut [u8], to: usize, v: u64) -> usize
    requires { to + length (blob (digits v)) ≤ length dst.old }
    ensures { (result ≡ to + length (blob (digits v))) × (dst.new ≡ put dst.old to (blob (digits v))) }
{
    let e = write_head(dst, to, b'$', decimal::countdigits(v) as u64);
    let f = decimal::write_digits(dst, e, v);
    buffer::copy_to(dst, f, b"\r\n");
    f + 2
}

// An argument, as a blob.
fn write_argument(s: &[u8], arg: Arg, cursor: u64, dst: &mut [u8], to: usize) -> usize
    requires { PlaceIn s.now arg × (to + length (blob (sent cursor (argument_of s.now arg))) ≤ length dst.old) }
    ensures { (result ≡ to + length (blob (sent cursor (argument_of s.now arg))))
        × (dst.new ≡ put dst.old to (blob (sent cursor (argument_of s.now arg)))) }
{
    match arg {
        Arg::Simple(g) => write_blob(dst, to, cursor::bytes_in(s, g)),
        Arg::Cursor => write_number(dst, to, cursor),
    }
}

// The arguments before the cursor k, as blobs.
fn write_arguments(s: &[u8], k: Args, cursor: u64, dst: &mut [u8], to: usize) -> usize
    requires { ArgsHere s.now k × (to + length (blob_bytes (texts cursor (args_of s.now k))) ≤ length dst.old) }
    ensures { (result ≡ to + length (blob_bytes (texts cursor (args_of s.now k))))
        × (dst.new ≡ put dst.old to (blob_bytes (texts cursor (args_of s.now k)))) }
{
    let mut next = to;
    for arg in cursor::args_iter(s, k) {
        next = write_argument(s, arg, cursor, dst, next);
    }
    next
}

// A command of a record: the arguments before k, under its cursor.
pub fn write_command(s: &[u8], k: Args, cursor: u64, dst: &mut [u8], to: usize) -> usize
    requires { ArgsHere s.now k × (to + length (packed (texts cursor (args_of s.now k))) ≤ length dst.old) }
    ensures { (result ≡ to + length (packed (texts cursor (args_of s.now k))))
        × (dst.new ≡ put dst.old to (packed (texts cursor (args_of s.now k)))) }
{
    let e = write_head(dst, to, b'*', k.left as u64);
    write_arguments(s, k, cursor, dst, e)
}

// How long a head is, whatever its mark.
pub fn head_len(n: u64) -> usize
    ensures { (mark : ℕ) → result ≡ length (head mark n) }
{
    3 + decimal::countdigits(n)
}

// How long a blob of len bytes is.
pub fn bulklen(len: usize) -> usize
    requires { len ≤ max_bytes }
    ensures { result ≡ 5 + length (digits len) + len }
{
    5 + decimal::countdigits(len as u64) + len
}

// How long an argument is as it is sent.
fn sent_len(s: &[u8], arg: Arg, cursor: u64) -> usize
    requires { PlaceIn s.now arg }
    ensures { result ≡ length (sent cursor (argument_of s.now arg)) }
{
    match arg {
        Arg::Simple(g) => cursor::bytes_in(s, g).len(),
        Arg::Cursor => decimal::countdigits(cursor),
    }
}

// How long a command of a record is when packed.
pub fn args_len(s: &[u8], k: Args, cursor: u64) -> usize
    requires { ArgsHere s.now k × (length s.now ≤ max_bytes) × (k.left ≤ max_arguments) }
    ensures { result ≡ length (packed (texts cursor (args_of s.now k))) }
{
    let mut total = head_len(k.left as u64);
    for arg in cursor::args_iter(s, k) {
        total += bulklen(sent_len(s, arg, cursor));
    }
    total
}

// `PTTL` and a key.
pub fn write_pttl(dst: &mut [u8], to: usize, key: &[u8]) -> usize
    requires { to + length (packed (pttl_texts key.now)) ≤ length dst.old }
    ensures { (result ≡ to + length (packed (pttl_texts key.now)))
        × (dst.new ≡ put dst.old to (packed (pttl_texts key.now))) }
{
    buffer::copy_to(dst, to, b"*2\r\n$4\r\nPTTL\r\n");
    write_blob(dst, to + 14, key)
}

// Kept: no plainer as one writer over an enum of the fixed commands: each here is one byte string and its length, and the calls of `multi_len`, `write_multi`
// and the others would each name a variant besides.
// How long `CLIENT CACHING YES` is when packed.
pub fn client_caching_len() -> usize
    ensures { result ≡ length (packed caching_texts) }
{
    38
}

// `CLIENT CACHING YES`.
pub fn write_client_caching(dst: &mut [u8], to: usize) -> usize
    requires { to + length (packed caching_texts) ≤ length dst.old }
    ensures { (result ≡ to + length (packed caching_texts)) × (dst.new ≡ put dst.old to (packed caching_texts)) }
{
    buffer::copy_to(
        dst,
        to,
        b"*3\r\n$6\r\nCLIENT\r\n$7\r\nCACHING\r\n$3\r\nYES\r\n",
    );
    to + client_caching_len()
}

// How long `MULTI` is when packed.
pub fn multi_len() -> usize
    ensures { result ≡ length (packed multi_texts) }
{
    15
}

// `MULTI`.
pub fn write_multi(dst: &mut [u8], to: usize) -> usize
    requires { to + length (packed multi_texts) ≤ length dst.old }
    ensures { (result ≡ to + length (packed multi_texts)) × (dst.new ≡ put dst.old to (packed multi_texts)) }
{
    buffer::copy_to(dst, to, b"*1\r\n$5\r\nMULTI\r\n");
    to + multi_len()
}

// How long `EXEC` is when packed.
pub fn exec_len() -> usize
    ensures { result ≡ length (packed exec_texts) }
{
    14
}

// `EXEC`.
pub fn write_exec(dst: &mut [u8], to: usize) -> usize
    requires { to + length (packed exec_texts) ≤ length dst.old }
    ensures { (result ≡ to + length (packed exec_texts)) × (dst.new ≡ put dst.old to (packed exec_texts)) }
{
    buffer::copy_to(dst, to, b"*1\r\n$4\r\nEXEC\r\n");
    to + exec_len()
}
