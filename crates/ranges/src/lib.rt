// Ranges that move within one lent slice: copied to another place, resized, rotated.
//
// The definitions (`moved`, `resized`, `rotated`) and their laws stand in specs/Move.antt of crate buffer.
#![tactic(auto)]

ghost use Rattle.std.specs.Prelude.{◌≡◌, ◌+◌, ◌-◌, ◌≤◌, length};
ghost use Rattle.buffer.specs.Move.{exchanged, moved, resized, rotated};

// Copies the n bytes at `from` to `to`, right also where the two ranges overlap; nothing is done where they are one.
#[tactic(auto, using(crate::proofs::Moves::pasted))]
pub fn copy_within(s: &mut [u8], from: usize, to: usize, n: usize)
    requires { (from + n ≤ length s.old) × (to + n ≤ length s.old) }
    ensures { s.new ≡ moved s.old from to n }
{
    if to == from {
        return;
    }
    s.copy_within(from..from + n, to);
}

// Makes room for n bytes in the place of those from `from` up to `to`: what follows up to `end` moves, and what is freed is zeroed.
// The caller then writes the n bytes at `from` (`resized-put`).
pub fn resize(s: &mut [u8], from: usize, to: usize, end: usize, n: usize)
    requires { (from ≤ to) × (to ≤ end) × (end ≤ length s.old) × (from + n + (end - to) ≤ length s.old) }
    ensures { s.new ≡ resized s.old from to end n }
{
    let next = from + n;
    let rest = end - to;
    copy_within(s, to, next, rest);
    buffer::fill_zero(s, next + rest, end);
}

// What `rotate` does where the second range fits into `kept`: it waits there while the first one moves up, so that each byte moves once.
// Kept: `rotate_left` alone takes twice as long for 40 bytes over 100, 1.6 times for 150 over 1,000 and 1.1 times for 150 over 20,000.
fn carry(s: &mut [u8], from: usize, mid: usize, end: usize, kept: &mut [u8])
    requires { (from ≤ mid) × (mid ≤ end) × (end ≤ length s.old) × (end - mid ≤ length kept.old) }
    ensures { s.new ≡ rotated s.old from mid end }
{
    let n = end - mid;
    buffer::copy_to(kept, 0, &s[mid..end]);
    s.copy_within(from..mid, from + n);
    buffer::copy_to(s, from, &kept[0..n]);
}

// Exchanges the n bytes at a with the n bytes at b, all of which are higher.
fn exchange(s: &mut [u8], a: usize, b: usize, n: usize)
    requires { (a + n ≤ b) × (b + n ≤ length s.old) }
    ensures { s.new ≡ exchanged s.old a b n }
{
    let (front, back) = s.split_at_mut(b);
    front[a..a + n].swap_with_slice(&mut back[..n]);
}

// What `rotate` does with long ranges. While neither fits into the room that std's `rotate_left` sets aside, the shorter one is exchanged with the far end of
// the other, where it stays, and what is left is rotated: nothing where the lengths come out even, so that `rotate_left` has nothing to turn.
fn rotate_long(s: &mut [u8], from: usize, mid: usize, end: usize)
    requires { (from ≤ mid) × (mid ≤ end) × (end ≤ length s.old) }
    ensures { s.new ≡ rotated s.old from mid end }
{
    let mut f = from;
    let mut e = end;
    while 4096 < (mid - f).min(e - mid) {
        if mid - f <= e - mid {
            let n = mid - f;
            e -= n;
            exchange(s, f, e, n);
            continue;
        }
        let n = e - mid;
        exchange(s, f, mid, n);
        f += n;
    }
    s[f..e].rotate_left(mid - f);
}

// Brings the bytes from `mid` up to `end` before those from `from` up to `mid`.
pub fn rotate(s: &mut [u8], from: usize, mid: usize, end: usize)
    requires { (from ≤ mid) × (mid ≤ end) × (end ≤ length s.old) }
    ensures { s.new ≡ rotated s.old from mid end }
{
    if mid == from {
        return;
    }
    if 1024 < end - mid {
        rotate_long(s, from, mid, end);
        return;
    }
    let mut kept = [0u8; 1024];
    carry(s, from, mid, end, &mut kept);
}
