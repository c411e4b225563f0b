// A line that is written from its end to its start.

ghost use Rattle.std.specs.Prelude.{◌≡◌, ◌+◌, ◌*◌, ◌≤◌, ◌++◌, length, codes};
ghost use Rattle.std.specs.Fmt.{decimal};
ghost use Rattle.hex.specs.Hex.{encode_lower};

use itoa::write_digits;
use mscp_text::write_hex;
use std::marker::Model;

/// How many bytes the longest line has: that of an end of 48 bytes of the second connection.
const ROOM: usize = 108;

/// The end of a line, which grows to the front, since the digits of a number are found from the last on. So a line is
/// appended to a report in one piece. It is kept from line to line, since a new room would have to be cleared for each.
#[derive(Drop)]
pub struct Tail {
    room: [u8; ROOM],
    start: usize,
}

// A clause sees the bytes.
impl Model for Tail {
    ghost use Rattle.std.specs.Prelude.{ℕ, ◌≤◌, List, drop};

    ghost Value = { List ℕ };

    ghost view = { λ t. drop t.start t.room };

    ghost invariant = { λ t. t.start ≤ 108 };
}

impl Tail {
    /// The end of each line: a line feed.
    #[inline]
    pub(crate) fn new() -> Tail
        ensures { result ≡ codes "\n" }
    {
        Tail {
            room: [b'\n'; ROOM],
            start: ROOM - 1,
        }
    }

    /// Begins a line.
    #[inline]
    pub(crate) fn begin(&mut self)
        ensures { self.new ≡ codes "\n" }
    {
        self.start = ROOM - 1;
        self.room[self.start] = b'\n';
    }

    /// Puts words in front.
    #[inline]
    pub(crate) fn words(&mut self, words: &str)
        requires { length words.now + length self.old ≤ 108 }
        ensures { self.new ≡ words.now ++ self.old }
    {
        let (bytes, end) = (words.as_bytes(), self.start);
        for i in 0..bytes.len() {
            self.room[end - 1 - i] = bytes[bytes.len() - 1 - i];
        }
        self.start = end - bytes.len();
    }

    /// Puts the decimal digits of a number in front.
    #[inline]
    pub(crate) fn number(&mut self, number: u32)
        requires { 10 + length self.old ≤ 108 }
        ensures value { self.new ≡ decimal number ++ self.old }
        ensures short { length self.new ≤ 10 + length self.old }
    {
        self.start = write_digits(u64::from(number), &mut self.room, self.start);
    }

    /// Puts words and then a number in front.
    #[inline]
    pub(crate) fn field(&mut self, words: &str, number: u32)
        requires { length words.now + (10 + length self.old) ≤ 108 }
        ensures value { self.new ≡ words.now ++ (decimal number ++ self.old) }
        ensures short { length self.new ≤ length words.now + (10 + length self.old) }
    {
        self.number(number);
        self.words(words);
    }

    /// Puts bytes in front, each as two lower case hexadecimal digits.
    #[inline]
    pub(crate) fn hex(&mut self, bytes: &[u8])
        requires { 2 * length bytes.now + length self.old ≤ 108 }
        ensures value { self.new ≡ encode_lower bytes.now ++ self.old }
        ensures long { length self.new ≡ 2 * length bytes.now + length self.old }
    {
        let end = self.start;
        self.start = end - 2 * bytes.len();
        write_hex(bytes, &mut self.room[self.start..end]);
    }

    /// The line, from what was put last on.
    #[inline]
    pub(crate) fn bytes(&self) -> &[u8]
        ensures value { result.now ≡ self.now }
        ensures short { length self.now ≤ 108 }
    {
        &self.room[self.start..]
    }
}
