// Which commands' answers may be cached: `command_properties` cut to its ReadOnlyCacheable arm, without the names that request 5 takes
// off it, and `is_multi_key`.
// specs/Names.antt and specs/MultiKey.antt have the definitions. Names are compared byte for byte, so only capitals are names.
#![tactic(auto)]

ghost use Rattle.std.specs.Prelude.{◌≡◌, List, length, true};
ghost use Rattle.buffer.specs.Same.{Bytes};
ghost use Rattle.commands.specs.Names.{member, is_cacheable, takes_sole_key};
ghost use Rattle.commands.specs.MultiKey.{multi_key};
ghost use Rattle.commands.specs.Rows.{row, of_length};

// Whether a and b have the same bytes, stopping at the first difference.
// Kept: `==` of slices, as `buffer::same` has it, compares groups of bytes: `is_cachable_cmd` takes 1.4 to 2.9 times as long with it.
fn same(a: &[u8], b: &[u8]) -> bool
    ensures { (result ≡ true → a.now ≡ b.now) × (a.now ≡ b.now → result ≡ true) }
{
    a.len() == b.len() && a.iter().zip(b).all(|(x, y)| x == y)
}

// Whether name is one of the names of its length that stand in rows, a bar before each. Names are short and mostly differ in their
// first bytes, so the comparison is the one that stops at the first difference.
fn listed(name: &[u8], rows: &[u8]) -> bool
    ensures { (xs : List Bytes) → rows.now ≡ row (of_length (length name.now) xs) → result ≡ member name.now xs }
{
    for row in rows.chunks_exact(name.len() + 1) {
        if same(&row[1..], name) {
            return true;
        }
    }
    false
}

// Whether the name is one of those. It is compared only with the names of its length.
pub fn is_cachable_cmd(name: &[u8]) -> bool
    ensures { result ≡ is_cacheable name.now }
{
    match name.len() {
        3 => listed(name, b"|GET"),
        4 => listed(name, b"|DUMP|HGET|HLEN|LLEN|LPOS|MGET|TYPE"),
        5 => listed(name, b"|HKEYS|HMGET|HVALS|SCARD|SDIFF|ZCARD|ZRANK"),
        6 => listed(
            name,
            b"|BITPOS|EXISTS|GEOPOS|GETBIT|LINDEX|LRANGE|SINTER|STRLEN|SUBSTR|SUNION|ZCOUNT|ZRANGE|ZSCORE",
        ),
        7 => listed(name, b"|GEODIST|GEOHASH|HEXISTS|HGETALL|HSTRLEN|ZMSCORE"),
        8 => listed(name, b"|BITCOUNT|GETRANGE|JSON.GET|SMEMBERS|ZREVRANK"),
        9 => listed(
            name,
            b"|JSON.MGET|JSON.RESP|JSON.TYPE|SISMEMBER|ZLEXCOUNT|ZREVRANGE",
        ),
        10 => listed(name, b"|SMISMEMBER"),
        11 => listed(
            name,
            b"|BITFIELD_RO|JSON.ARRLEN|JSON.OBJLEN|JSON.STRLEN|ZRANGEBYLEX",
        ),
        12 => listed(name, b"|JSON.OBJKEYS"),
        13 => listed(name, b"|JSON.ARRINDEX|ZRANGEBYSCORE"),
        14 => listed(name, b"|ZREVRANGEBYLEX"),
        16 => listed(name, b"|ZREVRANGEBYSCORE"),
        _ => false,
    }
}

// Whether every argument of a command of this name is a key, so that it is cached with one alone.
pub fn takes_sole_key(name: &[u8]) -> bool
    ensures { result ≡ takes_sole_key name.now }
{
    match name.len() {
        5 => listed(name, b"|SDIFF"),
        6 => listed(name, b"|EXISTS|SINTER|SUNION"),
        _ => false,
    }
}

// The commands that ask for several keys.
#[derive(Clone, Copy, Drop)]
pub enum MultiKey {
    Mget,
    JsonMget,
}

// Which of them the name is, if it is one. The command that asks for one of its keys has the name single_name of the answer.
pub fn is_multi_key(name: &[u8]) -> Option<MultiKey>
    ensures { result ≡ multi_key name.now }
{
    if same(name, b"MGET") {
        return Some(MultiKey::Mget);
    }
    if same(name, b"JSON.MGET") {
        return Some(MultiKey::JsonMget);
    }
    None
}
