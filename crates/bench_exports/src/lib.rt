// Leaves of the library, each behind C linkage, for the host's benchmark alone: no part of the cache that a host links against. Each
// answers what the leaf below it answers.
#![tactic(auto)]

ghost use Rattle.std.specs.Prelude.{◌≡◌, ◌≤◌, length};
ghost use Rattle.buffer.specs.Part.{put};
ghost use Rattle.buffer.specs.Same.{same};
ghost use Rattle.buffer.specs.Zero.{all_zero};
ghost use Rattle.config.specs.Limits.{max_bytes, max_arguments};
ghost use Rattle.siphash.specs.Sip.{sip_hash13};
ghost use Rattle.resp3.specs.Ends.{is_value};
ghost use Rattle.cursor.specs.At.{args_at, ArgsIn};
ghost use Rattle.cmd.specs.Pack.{texts, packed};

use cursor::Args;

// The hash of a key's bytes.
#[unsafe(no_mangle)]
pub extern "C" fn bench_sip_hash_13(key: &[u8]) -> u64
    ensures { result ≡ sip_hash13 key.now }
{
    siphash::sip_hash_13(key)
}

// Whether a and b have the same bytes.
#[unsafe(no_mangle)]
pub extern "C" fn bench_same(a: &[u8], b: &[u8]) -> bool
    ensures { result ≡ same a.now b.now }
{
    buffer::same(a, b)
}

// Whether s has only zeros.
#[unsafe(no_mangle)]
pub extern "C" fn bench_all_zero(s: &[u8]) -> bool
    ensures { result ≡ all_zero s.now }
{
    buffer::all_zero(s, 0, s.len())
}

// Copies src to the front of dst.
#[unsafe(no_mangle)]
pub extern "C" fn bench_copy(dst: &mut [u8], src: &[u8])
    requires { length src.now ≤ length dst.old }
    ensures { dst.new ≡ put dst.old 0 src.now }
{
    buffer::copy_to(dst, 0, src);
}

// Whether s is exactly one RESP3 value within the limits.
#[unsafe(no_mangle)]
pub extern "C" fn bench_is_value(s: &[u8]) -> bool
    ensures { result ≡ is_value s.now }
{
    resp3::is_value(s)
}

// How long a command is when packed: `left` arguments at `at` of a record.
#[unsafe(no_mangle)]
pub extern "C" fn bench_args_len(s: &[u8], at: usize, left: usize, cursor: u64) -> usize
    requires { ArgsIn s.now left at × (length s.now ≤ max_bytes) × (left ≤ max_arguments) }
    ensures { result ≡ length (packed (texts cursor (args_at s.now left at))) }
{
    cmd::args_len(s, Args { at: at, left: left }, cursor)
}

// Packs that command at the front of dst, and answers the place behind it.
#[unsafe(no_mangle)]
pub extern "C" fn bench_write_command(
    s: &[u8],
    at: usize,
    left: usize,
    cursor: u64,
    dst: &mut [u8],
) -> usize
    requires { ArgsIn s.now left at × (length (packed (texts cursor (args_at s.now left at))) ≤ length dst.old) }
    ensures answer { result ≡ length (packed (texts cursor (args_at s.now left at))) }
    ensures bytes { dst.new ≡ put dst.old 0 (packed (texts cursor (args_at s.now left at))) }
{
    cmd::write_command(s, Args { at: at, left: left }, cursor, dst, 0)
}
