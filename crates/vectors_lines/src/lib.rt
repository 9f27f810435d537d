// Lines of a text: the programs that try vectors read their input by them. A line ends before its line feed.
#![tactic(auto)]

ghost use Rattle.std.specs.Prelude.{◌≤◌, length};
ghost use Rattle.vectors_lines.specs.Lines.{LineEnds};

// Where the line that starts at `at` ends: at the next line feed, or where the text does.
pub fn line_end(s: &[u8], at: usize) -> usize
    requires { at ≤ length s.now }
    ensures { LineEnds s.now at result }
{
    match s[at..].iter().position(|&byte| byte == b'\n') {
        Some(n) => at + n,
        None => s.len(),
    }
}
