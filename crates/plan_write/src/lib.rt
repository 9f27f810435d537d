// The plan's head and nodes, written at a place of the plan buffer (docs/LAYOUT.md, "The plan"). Every writer writes exactly the bytes that planning's
// specs/Plan.antt defines, leaves the rest of the buffer as it was, and answers the place behind them. A node's kind is a parameter where kinds are
// written alike.
#![tactic(auto)]

ghost use Rattle.std.specs.Prelude.{◌≡◌, cond, [], ◌+◌, ◌≤◌, length};
ghost use Rattle.buffer.specs.Part.{put};
ghost use Rattle.config.specs.Limits.{max_arena, max_bytes};
ghost use Rattle.command_key.specs.Key.{key_bytes, KeyIn};
ghost use Rattle.planning.specs.Kinds.{number_of_kind};
ghost use Rattle.planning.specs.Plan.{node_bytes, served_kind, plan_head_size, node_head_size};
ghost use Rattle.plan_write.specs.Pieces.{plan_head, node_head};

use command_key::CommandKey;
use planning::NodeKind;

// The plan's flags: bit 0 says that it is a transaction's.
fn flags(transaction: bool) -> u8
    ensures { result ≡ cond transaction 1 0 }
{
    if transaction { 1 } else { 0 }
}

// The plan's head: flags, `_` CR LF, the number of commands.
pub fn write_plan_head(dst: &mut [u8], transaction: bool, commands: u32) -> usize
    requires { plan_head_size ≤ length dst.old }
    ensures { (result ≡ plan_head_size) × (dst.new ≡ put dst.old 0 (plan_head transaction commands)) }
{
    dst[0] = flags(transaction);
    resp3::write_null(dst, planning::NULL_START);
    buffer::write_u32(dst, planning::NULL_END, commands);
    planning::PLAN_HEAD
}

// A node's kind, the lengths of its parts, and its number.
fn write_node_head(dst: &mut [u8], to: usize, kind: NodeKind, first: u32, second: u32, number: u64)
    requires { to + node_head_size ≤ length dst.old }
    ensures { dst.new ≡ put dst.old to (node_head (number_of_kind kind) first second number) }
{
    buffer::write_u32(dst, to, u32::from(kind));
    buffer::write_u32(dst, to + 4, first);
    buffer::write_u32(dst, to + 8, second);
    buffer::write_u64(dst, to + 12, number);
}

// A node with no parts: a reply handed on, the number of places of a several-key command, its end.
pub fn write_bare(dst: &mut [u8], to: usize, kind: NodeKind, number: u64) -> usize
    requires { to + length (node_bytes (number_of_kind kind) [] [] number) ≤ length dst.old }
    ensures { (result ≡ to + length (node_bytes (number_of_kind kind) [] [] number))
        × (dst.new ≡ put dst.old to (node_bytes (number_of_kind kind) [] [] number)) }
{
    write_node_head(dst, to, kind, 0, 0, number);
    to + planning::NODE_HEAD
}

// A served value, which is copied.
pub fn write_served(dst: &mut [u8], to: usize, value: &[u8]) -> usize
    requires { (to + length (node_bytes served_kind value.now [] 0) ≤ length dst.old) × (length value.now ≤ max_arena) }
    ensures { (result ≡ to + length (node_bytes served_kind value.now [] 0))
        × (dst.new ≡ put dst.old to (node_bytes served_kind value.now [] 0)) }
{
    write_node_head(dst, to, NodeKind::Served, value.len() as u32, 0, 0);
    buffer::copy_to(dst, to + planning::NODE_HEAD, value);
    to + planning::NODE_HEAD + value.len()
}

// How long the node of a missing key is.
pub fn missing_len(key: &[u8], source: &[u8], command: CommandKey) -> usize
    requires { KeyIn source.now command × (length key.now ≤ max_bytes) × (length source.now ≤ max_bytes) }
    ensures { result ≡ node_head_size + length key.now + length (key_bytes source.now command) }
{
    planning::NODE_HEAD + key.len() + command_key::key_len(source, command)
}

// A missing key, alone or as a place: the key, its command key and the client expiry.
pub fn write_missing(
    dst: &mut [u8],
    to: usize,
    kind: NodeKind,
    key: &[u8],
    source: &[u8],
    command: CommandKey,
    expiry: u64,
) -> usize
    requires { KeyIn source.now command × (length key.now ≤ max_bytes) × (length source.now ≤ max_bytes)
        × (to + length (node_bytes (number_of_kind kind) key.now (key_bytes source.now command) expiry) ≤ length dst.old) }
    ensures { (result ≡ to + length (node_bytes (number_of_kind kind) key.now (key_bytes source.now command) expiry))
        × (dst.new ≡ put dst.old to (node_bytes (number_of_kind kind) key.now (key_bytes source.now command) expiry)) }
{
    let n = command_key::key_len(source, command);
    write_node_head(dst, to, kind, key.len() as u32, n as u32, expiry);
    buffer::copy_to(dst, to + planning::NODE_HEAD, key);
    let next = to + planning::NODE_HEAD + key.len();
    command_key::key_copy(source, command, dst, next);
    next + n
}
