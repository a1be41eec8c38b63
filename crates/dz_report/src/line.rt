//! A line that takes no memory.

ghost use Rattle.std.specs.Prelude.{◌≡◌, ◌≤◌, ◌<◌, ◌+◌, ◌++◌, length, decimal};
ghost use Rattle.dz_name.specs.Text.{text_of};
ghost use Rattle.dz_name.specs.Words.{Octets};
ghost use Rattle.dz_report.specs.Lines.{also, behind, end};

use arrayvec::ArrayVec;
use dz_name::Name;
use itoa::Buffer;
use std::marker::Model;

/// How many octets a line that names one zone has at most.
pub const LINE: usize = 1100;

/// A line of the log, of at most 1,100 octets with its newline.
#[derive(Drop)]
pub struct LogLine {
    text: ArrayVec<u8, LINE>,
}

impl Model for LogLine {
    ghost use Rattle.dz_name.specs.Words.{Octets};

    ghost Value = { Octets };

    ghost view = { λ l. l.text.items };
}

impl LogLine {
    /// A line that begins with a short word.
    pub(crate) fn begin(word: &[u8]) -> LogLine
        requires { length word.now ≤ 16 }
        ensures { result ≡ word.now }
    {
        let mut line = LogLine {
            text: ArrayVec::new(),
        };
        line.put(word);
        line
    }

    /// The octets of the line.
    pub fn as_slice(&self) -> &[u8]
        ensures { result.now ≡ self.now }
    {
        self.text.as_slice()
    }

    /// Puts octets after the others.
    fn put(&mut self, piece: &[u8])
        requires { length self.old + length piece.now ≤ LINE }
        ensures { self.new ≡ self.old ++ piece.now }
    {
        match self.text.try_extend_from_slice(piece) {
            Ok(()) => {}
            Err(_) => unreachable!(),
        }
    }

    /// Puts a space and a further word.
    pub(crate) fn also(&mut self, word: &[u8])
        requires { length self.old + length word.now < LINE }
        ensures line { self.new ≡ also self.old word.now }
        ensures size { length self.new ≡ length self.old + 1 + length word.now }
    {
        self.put(b" ");
        self.put(word);
    }

    /// Puts a dot and an octet in decimal.
    pub(crate) fn octet(&mut self, octet: u8)
        requires { length self.old + 4 ≤ LINE }
        ensures line { self.new ≡ behind self.old 46 octet }
        ensures size { length self.new ≤ length self.old + 4 }
    {
        let mut digits = Buffer::new();
        self.put(b".");
        self.put(digits.format(octet).as_bytes());
    }

    /// Puts a mark and a number in decimal.
    pub(crate) fn behind(&mut self, mark: u8, number: u16)
        requires { length self.old + 6 ≤ LINE }
        ensures line { self.new ≡ behind self.old mark number }
        ensures size { length self.new ≤ length self.old + 6 }
    {
        let mut digits = Buffer::new();
        self.put(&[mark]);
        self.put(digits.format(number).as_bytes());
    }

    /// Puts a space and a number in decimal.
    pub(crate) fn also_number(&mut self, number: u64)
        requires { length self.old + 20 < LINE }
        ensures line { self.new ≡ also self.old (decimal number) }
        ensures size { length self.new ≤ length self.old + 21 }
    {
        let mut digits = Buffer::new();
        self.also(digits.format(number).as_bytes());
    }

    /// Puts a space and a name.
    pub(crate) fn also_name(&mut self, name: &Name)
        requires { length self.old + 1024 < LINE }
        ensures line { self.new ≡ also self.old (text_of name.now) }
        ensures size { length self.new ≤ length self.old + 1025 }
    {
        let text = name.print();
        self.also(text.as_bytes());
    }

    /// Puts the end of the line.
    pub(crate) fn end(&mut self)
        requires { length self.old < LINE }
        ensures { self.new ≡ end self.old }
    {
        self.put(b"\n");
    }
}
