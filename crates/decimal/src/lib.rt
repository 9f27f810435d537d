// A u64 in decimal digits: how many there are, the digits written, and canonical digits with their CR LF read back.
// specs/Digits.antt says what a number's digits are, specs/Ranges.antt which numbers have so many, specs/Read.antt what reading finds.
#![tactic(auto)]

ghost use Rattle.std.specs.Prelude.{◌≡◌, ◌+◌, ◌≤◌, ltb, length, get_or};
ghost use Rattle.buffer.specs.Part.{put};
ghost use Rattle.decimal.specs.Digits.{digits};
ghost use Rattle.decimal.specs.Ranges.{Holds};
ghost use Rattle.decimal.specs.Read.{digit_b, crlf_b, digits_at, num_def};

// The least and the greatest number of so many digits.
#[derive(Drop)]
struct Range(u64, u64);

// The numbers of n digits: twenty ranges, which together are all numbers of 64 bits. The last is that of 20.
// Kept: a list with both bounds of every range, a line each, which `Holds` and the five `range_of_` edits of must-fail hold; std's `ilog10` has no such lines.
fn range_of(n: usize) -> Range
    requires { (1 ≤ n) × (n ≤ 20) }
    ensures { Holds n result.0 result.1 }
{
    match n {
        1 => Range(0, 9),
        2 => Range(10, 99),
        3 => Range(100, 999),
        4 => Range(1_000, 9_999),
        5 => Range(10_000, 99_999),
        6 => Range(100_000, 999_999),
        7 => Range(1_000_000, 9_999_999),
        8 => Range(10_000_000, 99_999_999),
        9 => Range(100_000_000, 999_999_999),
        10 => Range(1_000_000_000, 9_999_999_999),
        11 => Range(10_000_000_000, 99_999_999_999),
        12 => Range(100_000_000_000, 999_999_999_999),
        13 => Range(1_000_000_000_000, 9_999_999_999_999),
        14 => Range(10_000_000_000_000, 99_999_999_999_999),
        15 => Range(100_000_000_000_000, 999_999_999_999_999),
        16 => Range(1_000_000_000_000_000, 9_999_999_999_999_999),
        17 => Range(10_000_000_000_000_000, 99_999_999_999_999_999),
        18 => Range(100_000_000_000_000_000, 999_999_999_999_999_999),
        19 => Range(1_000_000_000_000_000_000, 9_999_999_999_999_999_999),
        _ => Range(10_000_000_000_000_000_000, 18_446_744_073_709_551_615),
    }
}

// Whether v has more than n digits: it lies beyond their range.
fn has_more(v: u64, n: usize) -> bool
    requires { (1 ≤ n) × (n ≤ 20) }
    ensures { result ≡ ltb n (length (digits v)) }
{
    range_of(n).1 < v
}

// How many digits v has (cmd.rs), by the ranges: up to four digits, which most numbers have, one after the other, and then down from the last.
pub fn countdigits(v: u64) -> usize
    ensures { result ≡ length (digits v) }
{
    for n in 1..=4 {
        if !has_more(v, n) {
            return n;
        }
    }
    let mut n = 20;
    // Kept: `for n in (5..20).rev()` works out every test before the first one is asked: packing a command with a cursor of 20 digits takes 1.27 times the
    // instructions, and its length alone 2.4 times.
    while !has_more(v, n - 1) {
        n -= 1;
    }
    n
}

// Writes v's digits at `at`, and answers the place after them.
pub fn write_digits(dst: &mut [u8], at: usize, v: u64) -> usize
    requires { at + length (digits v) ≤ length dst.old }
    ensures { (result ≡ at + length (digits v)) × (dst.new ≡ put dst.old at (digits v)) }
{
    let end = at + countdigits(v);
    let mut w = v;
    for i in (at..end).rev() {
        dst[i] = 48 + (w % 10) as u8;
        w /= 10;
    }
    end
}

// Whether CR LF stands at i.
pub fn crlf_at(s: &[u8], i: usize) -> bool
    ensures { result ≡ crlf_b s.now i }
{
    if i >= s.len() {
        return false;
    }
    if s[i] != 13 {
        return false;
    }
    if i + 1 >= s.len() {
        return false;
    }
    s[i + 1] == 10
}

// Whether b is a digit.
fn is_digit(b: u8) -> bool
    ensures { result ≡ digit_b b }
{
    b.is_ascii_digit()
}

// The value of the digits that stand at `at`, and the place after them: at least one, no plus sign, no leading zero, at most lim.
// What follows them is not judged.
pub fn digits_at(s: &[u8], at: usize, lim: u64) -> Option<(u64, usize)>
    ensures { result ≡ digits_at lim s.now at }
{
    if at >= s.len() {
        return None;
    }
    if s[at] == 48 {
        return Some((0, at + 1));
    }
    let tenth = lim / 10;
    let mut v = 0;
    for i in at..s.len() {
        if !is_digit(s[i]) {
            return if i == at { None } else { Some((v, i)) };
        }
        if v > tenth {
            return None;
        }
        let digit = u64::from(s[i]) - 48;
        if digit > lim - v * 10 {
            return None;
        }
        v = v * 10 + digit;
    }
    Some((v, s.len()))
}

// Reads the number at `at`, of any number of digits: no plus sign, no leading zero, at most lim, CR LF behind it.
// What is found is its value and the place after its CR LF.
pub fn read_num(s: &[u8], at: usize, lim: u64) -> Option<(u64, usize)>
    ensures { result ≡ num_def lim s.now at }
{
    let (v, e) = digits_at(s, at, lim)?;
    if crlf_at(s, e) {
        Some((v, e + 2))
    } else {
        None
    }
}
