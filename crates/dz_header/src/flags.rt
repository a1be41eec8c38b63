//! The flags of a header.

ghost use Rattle.std.specs.Prelude.{◌≡◌};
ghost use Rattle.dz_header.specs.Flags.{bit, flags_number, ReadsBack};

/// The bit QR, which marks a response.
pub(crate) const RESPONSE: u16 = 32_768;
/// The lowest bit of the opcode, which has four.
pub(crate) const OPCODE: u16 = 2048;
/// How many opcodes there are, and how many response codes in a header: each has four bits.
pub(crate) const CODES: u16 = 16;
/// The bit AA.
pub(crate) const AUTHORITATIVE: u16 = 1024;
/// The bit TC.
pub(crate) const TRUNCATED: u16 = 512;
/// The bit RD.
pub(crate) const RECURSION_DESIRED: u16 = 256;

/// What the flags of a header say (RFC 1035 section 4.1.1): QR, the opcode, AA, TC, RD, and the response code. The
/// lower four bits of opcode and code are written. The other bits are 0.
#[derive(Clone, Copy, Debug, PartialEq, Eq)]
pub struct Flags {
    pub response: bool,
    pub opcode: u16,
    pub authoritative: bool,
    pub truncated: bool,
    pub recursion_desired: bool,
    pub code: u16,
}

impl Flags {
    /// The flags as the 16-bit number in a header.
    pub fn number(&self) -> u16
        ensures value { result ≡ flags_number self.now }
        ensures read { ReadsBack self.now result }
    {
        let marks = bit(self.authoritative, AUTHORITATIVE)
            + (bit(self.truncated, TRUNCATED)
                + (bit(self.recursion_desired, RECURSION_DESIRED) + self.code % CODES));
        bit(self.response, RESPONSE) + (self.opcode % CODES * OPCODE + marks)
    }
}

/// This bit where it is set, and 0 otherwise.
fn bit(is_set: bool, value: u16) -> u16
    ensures { result ≡ bit is_set value }
{
    if is_set { value } else { 0 }
}
