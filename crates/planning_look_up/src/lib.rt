// A key looked up, in place, with its counts. specs/Looks.antt says what lookups make of the book, specs/Finds.antt what one of them finds.
#![tactic(auto)]

ghost use Rattle.std.specs.Prelude.{◌≡◌};
ghost use Rattle.cursor.specs.At.{range_bytes, RangeIn};
ghost use Rattle.command_key.specs.Key.{key_bytes, KeyIn};
ghost use Rattle.book.specs.Calls.{Wanted};
ghost use Rattle.key_filter.specs.Filter.{Filtered};
ghost use Rattle.planning_look_up.specs.Finds.{Finds};

use command_key::CommandKey;
use config::{Now, Settings};
use cursor::Range;
use shard_lookup::Looked;
use statistics::Statistics;

// What a lookup found, and the counts after it.
#[derive(Clone, Copy)]
pub struct Found {
    pub looked: Looked,
    pub counts: Statistics,
}

// One key looked up, in place.
pub fn look_up_key(
    arena: &mut [u8],
    bytes: &[u8],
    key: Range,
    command: CommandKey,
    g: Settings,
    when: Now,
    counts: Statistics,
    seen: &[u64],
) -> Found
    requires { RangeIn bytes.now key × KeyIn bytes.now command × Filtered g arena.old seen.now }
    ensures { (w : Wanted) → w.key ≡ range_bytes bytes.now key → w.command ≡ key_bytes bytes.now command
        → Finds g when.clock when.epoch w arena.old counts arena.new result }
{
    let text = cursor::bytes_in(bytes, key);
    let looked = key_filter::get(arena, g, text, bytes, command, when, seen);
    Found {
        looked: looked,
        counts: shard_lookup::counted(counts, looked),
    }
}
