//! Lines of text of fixed room, which take no memory.
#![tactic(auto)]

ghost use Rattle.std.specs.Prelude.{◌≡◌, ◌≤◌, ◌+◌, ◌++◌, length, decimal};

use arrayvec::ArrayString;

/// The most octets of a line.
pub const ROOM: usize = 256;

/// The most decimal digits of a number, in octets.
pub const DIGITS: usize = 20;

/// A line of text.
pub type Line = ArrayString<ROOM>;

/// Appends a name, with what separates it from its number, and the number in decimal digits. The line has room for the
/// name and [`DIGITS`] octets more. It takes no memory.
pub fn push_entry(line: &mut Line, name: &str, number: u64)
    requires { length line.old.bytes + length name.now + DIGITS ≤ ROOM }
    ensures text { line.new.bytes ≡ line.old.bytes ++ name.now ++ decimal number }
    ensures size { length line.new.bytes ≤ length line.old.bytes + length name.now + DIGITS }
{
    let mut digits = itoa::Buffer::new();
    line.push_str(name);
    line.push_str(digits.format(number));
}
