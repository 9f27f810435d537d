// Cursors over the commands of a call record and over a command's arguments, in the order of `args_iter`. The record was checked:
// specs/At.antt says what stands at a place, and that this is the record is the theorem `decoded` of specs/Laws.antt.
#![tactic(auto)]

ghost use Rattle.std.specs.Prelude.{◌≡◌, ◌+◌, ◌≤◌, length};
ghost use Rattle.call_record.specs.Record.{transaction};
ghost use Rattle.cursor.specs.At.{own, range_bytes, RangeIn, argument_of, PlaceIn, args_end, args_of, ArgsHere, head_at, CommandsHere, command_cursor, record_at};
ghost use Rattle.cursor.specs.Steps.{arg_step, IterStep, command_step};
ghost use Rattle.std.specs.Iterator.{at_most};
ghost use Rattle.cursor.specs.Index.{arg_idx, found_text, FoundIn};

// A part of a slice: from `start` up to, not including, `end`.
#[derive(Clone, Copy, PartialEq, Eq, Debug)]
pub struct Range {
    pub start: usize,
    pub end: usize,
}

// A cursor over arguments: where the next one stands, and how many are left.
#[derive(Clone, Copy, PartialEq, Eq, Debug)]
pub struct Args {
    pub at: usize,
    pub left: usize,
}

// A cursor over commands: where the next one stands, and how many are left.
// Kept: no plainer as one type with `Args`, which would let a cursor over commands pass for one over arguments; a generic one needs a marker for what it goes over.
#[derive(Clone, Copy, PartialEq, Eq, Debug)]
pub struct Commands {
    pub at: usize,
    pub left: usize,
}

// A command's fields, with a cursor over its arguments.
#[derive(Clone, Copy, PartialEq, Eq, Debug)]
pub struct Head {
    pub flags: u8,
    pub ttl: u64,
    pub cursor: u64,
    pub args: Args,
}

// An argument: its bytes' place, or the mark at which the command's cursor goes.
// Kept: no plainer as an Option, since a cursor is an argument that is there, and `next_arg` answers an Option of one.
#[derive(Clone, Copy, PartialEq, Eq, Debug)]
pub enum Arg {
    Simple(Range),
    Cursor,
}

// The bytes of a range, as a part of the slice.
pub fn bytes_in(s: &[u8], g: Range) -> &[u8]
    requires { RangeIn s.now g }
    ensures { result.now ≡ range_bytes s.now g }
{
    let a = g.start;
    let e = g.end;
    &s[a..e]
}

// The bytes of an argument's own: a cursor has none.
pub fn own_bytes(s: &[u8], arg: Arg) -> &[u8]
    requires { PlaceIn s.now arg }
    ensures { result.now ≡ own (argument_of s.now arg) }
{
    match arg {
        Arg::Simple(g) => bytes_in(s, g),
        Arg::Cursor => &[],
    }
}

// The next argument, where there is one, and a cursor over those behind it.
pub fn next_arg(s: &[u8], k: Args) -> Option<(Arg, Args)>
    requires { ArgsHere s.now k }
    ensures { result ≡ arg_step s.now k }
{
    let at = k.at;
    if k.left == 0 {
        return None;
    }
    let start = at + 5;
    let end = start + buffer::read_u32(s, at + 1) as usize;
    let rest = Args {
        at: end,
        left: k.left - 1,
    };
    if s[at] == 0 {
        Some((Arg::Simple(Range { start, end }), rest))
    } else {
        Some((Arg::Cursor, rest))
    }
}

// The arguments one after the other.
#[derive(Drop)]
pub struct ArgsIter<'a> {
    pub bytes: &'a [u8],
    pub rest: Args,
}

impl<'a> Iterator for ArgsIter<'a> {
    type Item = Arg;

    ghost can_next = { λ s. ArgsHere s.bytes.now s.rest };

    ghost next_gives = { λ s r t. (t.bytes ≡ s.bytes) × IterStep s.bytes.now s.rest r t.rest };

    ghost remaining = { λ s. at_most s.rest.left };

    fn next(&mut self) -> Option<Arg> {
        let (arg, rest) = next_arg(self.bytes, self.rest)?;
        self.rest = rest;
        Some(arg)
    }
}

// The arguments that a cursor over them has before it.
pub fn args_iter(s: &[u8], k: Args) -> ArgsIter
    requires { ArgsHere s.now k }
    ensures { (result.bytes.now ≡ s.now) × (result.rest ≡ k) }
{
    ArgsIter { bytes: s, rest: k }
}

// Where the arguments end.
pub fn args_end(s: &[u8], k: Args) -> usize
    requires { ArgsHere s.now k }
    ensures { result ≡ args_end s.now k.left k.at }
{
    let mut k = k;
    while let Some((_, rest)) = next_arg(s, k) {
        k = rest;
    }
    k.at
}

// Argument idx, where it is there: not one past the last, no cursor, and no empty name.
pub fn arg_idx(s: &[u8], k: Args, idx: usize) -> Option<Range>
    requires { ArgsHere s.now k }
    ensures { (found_text s.now result ≡ arg_idx (args_of s.now k) idx) × FoundIn s.now result }
{
    let mut k = k;
    // The bytes of those before it.
    let mut before = 0;
    for _ in 0..idx {
        let (arg, rest) = next_arg(s, k)?;
        before += own_bytes(s, arg).len();
        k = rest;
    }
    let (arg, _) = next_arg(s, k)?;
    let g = match arg {
        Arg::Simple(g) => g,
        Arg::Cursor => return None,
    };
    if before + (g.end - g.start) == 0 {
        return None;
    }
    Some(g)
}

// The fields of the command at `at`.
pub fn head_at(s: &[u8], at: usize) -> Head
    requires { at + 19 ≤ length s.now }
    ensures { result ≡ head_at s.now at }
{
    let ttl = buffer::read_u64(s, at + 1);
    let cursor = buffer::read_u64(s, at + 9);
    let count = buffer::read_u16(s, at + 17) as usize;
    let args = Args {
        at: at + 19,
        left: count,
    };
    Head {
        flags: s[at],
        ttl: ttl,
        cursor: cursor,
        args: args,
    }
}

// The next command, where there is one, and a cursor over those behind it.
pub fn next_command(s: &[u8], k: Commands) -> Option<(Head, Commands)>
    requires { CommandsHere s.now k }
    ensures { result ≡ command_step s.now k }
{
    if k.left == 0 {
        return None;
    }
    let head = head_at(s, k.at);
    let rest = Commands {
        at: args_end(s, head.args),
        left: k.left - 1,
    };
    Some((head, rest))
}

// A cursor over all commands of a checked record.
pub fn commands_of(bytes: &[u8]) -> Commands
    requires { 8 ≤ length bytes.now }
    ensures { result ≡ command_cursor bytes.now }
{
    Commands {
        at: 8,
        left: buffer::read_u16(bytes, 6) as usize,
    }
}

// Whether a checked record is a transaction.
pub fn is_transaction(bytes: &[u8]) -> bool
    requires { 8 ≤ length bytes.now }
    ensures { result ≡ transaction (record_at bytes.now) }
{
    bytes[5] % 2 == 1
}
