ghost use Rattle.std.specs.Prelude.{◌≡◌, ℕ, ◌+◌, ◌<◌, ◌≤◌, ◌++◌, List, length, slice_index, Err, IfOk, IfErr, IfSome};
ghost use Rattle.std.specs.Prelude.{IsNone};
ghost use Rattle.dz_name.specs.Name.{wire_of, IsName};
ghost use Rattle.dz_name.specs.Words.{Name};
ghost use Rattle.dz_name.specs.Reading.{Reading, Reads, label_end, name_at, IsNameBetween, canonical_end};
ghost use Rattle.dz_name.specs.inner.Landings.{AreLandings, EndsChains};

use crate::name::Name;
use crate::wire::{Wire, landing};
use dz_steps::Steps;
use std::marker::Brand;
use std::sync::ledger::{Blank, Ledger};

/// The most steps that reading a name takes where no chain of pointers is followed: each of up to 127 labels and the
/// zero octet, and a pointer before each of these.
pub const NAME_LOOKS: usize = 256;

/// What is wrong with a name in a message: the first fault met in reading it.
#[derive(Clone, Copy, Debug, PartialEq, Eq)]
pub enum WireFault {
    /// An octet of the name would be past the end of the message.
    Short,
    /// A length octet has the top bits 01 or 10.
    BadLabelKind,
    /// A pointer doesn't lead to before the first octet of the piece of the name that it ends.
    BadPointer,
    /// The name has more than 255 octets in wire form.
    NameTooLong,
}

impl Name {
    /// Reads the name at an offset of a message and follows its pointers (RFC 1035 sections 3.1 and 4.1.4). Its labels
    /// are given in lower case, together with the offset after the name at the place where it was read. It is for
    /// octets in which few names are read: each chain of pointers is followed anew.
    ///
    /// A pointer has to lead to before the first octet of the piece of the name that it ends, so each reading ends.
    ///
    /// # Errors
    ///
    /// The first fault met in reading. A label that is cut short is `Short`, even where it would also make the name too
    /// long.
    pub fn read_at(message: &[u8], at: usize) -> Result<(Name, usize), WireFault>
        ensures relation { Reads message.now at 0 at result }
        ensures value { result ≡ name_at message.now at }
        ensures place { IfOk result (λ r. (at < r.1) × (r.1 ≤ length message.now)) }
        ensures once { (other : Reading) → Reads message.now at 0 at other → other ≡ result }
        ensures written { (end : ℕ) (labels : Name) → IsNameBetween message.now at end labels
            → result ≡ Ok (labels, end) }
    {
        read_plain::<Brand>(Blank::new(1), message, at)
    }

    /// The same, with the same errors, without following any chain of pointers: the table of the message gives its
    /// end. A step is one look at a label, a pointer or the zero octet.
    pub fn read_in<L: Ledger>(
        message: &Wire<'_>,
        at: usize,
        steps: &mut Steps<L>,
    ) -> Result<(Name, usize), WireFault>
        ensures relation { Reads message.now at 0 at result }
        ensures value { result ≡ name_at message.now at }
        ensures place { IfOk result (λ r. (at < r.1) × (r.1 ≤ length message.now)) }
        ensures once { (other : Reading) → Reads message.now at 0 at other → other ≡ result }
        ensures written { (end : ℕ) (labels : Name) → IsNameBetween message.now at end labels
            → result ≡ Ok (labels, end) }
        ensures counted { steps.old ≤ steps.new }
        ensures most { steps.new ≤ steps.old + NAME_LOOKS }
        ensures least { IfOk result (λ r. steps.old + length r.0 < steps.new) }
    {
        read_name(message.octets(), message.landings(), at, steps)
    }
}

/// Reads the name at an offset without a table, counted in a ledger that is still blank.
fn read_plain<L: Ledger>(
    blank: Blank,
    message: &[u8],
    at: usize,
) -> Result<(Name, usize), WireFault>
    requires name { blank.name ≡ L.name }
    requires parts { blank.parts ≡ L.parts }
    requires whole { blank.parts ≡ 1 }
    ensures { Reads message.now at 0 at result }
{
    let mut steps = Steps::<L>::new(blank);
    read_name(message, &[], at, &mut steps)
}

/// Reads the name at an offset, with this table of where chains of pointers end. The error is the first fault. Each
/// label, pointer and zero octet that is looked at is one step.
fn read_name<L: Ledger>(
    message: &[u8],
    landings: &[u16],
    at: usize,
    steps: &mut Steps<L>,
) -> Result<(Name, usize), WireFault>
    requires { AreLandings message.now landings.now }
    ensures reads { Reads message.now at 0 at result }
    ensures counted { steps.old ≤ steps.new }
    ensures most { EndsChains message.now landings.now → steps.new ≤ steps.old + NAME_LOOKS }
    ensures least { IfOk result (λ r. steps.old + length r.0 < steps.new) }
{
    let mut name = Name::root();
    let mut piece = at;
    let mut offset = at;
    let mut used = 0;
    let mut behind = None;
    'octets: while offset < message.len() {
        steps.tick();
        let first = message[offset] as usize;
        if first == 0 {
            return Ok((name, behind.unwrap_or(offset + 1)));
        }
        if first < 64 {
            check_label(message, offset, used)?;
            name.push_label(&message[offset + 1..offset + (first + 1)]);
            used += first + 1;
            offset += first + 1;
        } else if first < 192 {
            return Err(WireFault::BadLabelKind);
        } else {
            if message.len() - offset <= 1 {
                return Err(WireFault::Short);
            }
            let target = (first - 192) * 256 + message[offset + 1] as usize;
            if piece <= target {
                return Err(WireFault::BadPointer);
            }
            behind = Some(behind.unwrap_or(offset + 2));
            piece = landing(landings, target);
            offset = piece;
        }
    }
    Err(WireFault::Short)
}

/// Checks the label at an offset, after labels of `used` octets: it ends within the message, and leaves room for the
/// final zero octet within 255. The error is the first fault.
fn check_label(message: &[u8], offset: usize, used: usize) -> Result<(), WireFault>
    requires within { offset < length message.now }
    requires some { 0 < slice_index message.now offset }
    requires label { slice_index message.now offset < 64 }
    requires short { used < 255 }
    ensures whole { IfOk result (λ _. label_end message.now offset ≤ length message.now) }
    ensures room { IfOk result (λ _. used + (slice_index message.now offset + 1) < 255) }
    ensures fault { IfErr result (λ fault. (piece : ℕ)
        → Reads message.now piece used offset (Err fault)) }
{
    let first = message[offset] as usize;
    if message.len() - offset <= first {
        return Err(WireFault::Short);
    }
    if 255 <= used + (first + 1) {
        return Err(WireFault::NameTooLong);
    }
    Ok(())
}

/// The offset after the name in canonical form that begins at an offset: a name without pointers and upper-case
/// letters, of at most 255 octets (RFC 4034 section 6.2). None where there is no such name.
pub fn canonical_name_end(octets: &[u8], at: usize) -> Option<usize>
    ensures value { result ≡ canonical_end octets.now at }
    ensures found { IfSome result
        (λ end. (labels : Name) × IsNameBetween octets.now at end labels) }
    ensures none { IsNone result → (end : ℕ) (labels : Name)
        → ¬ IsNameBetween octets.now at end labels }
{
    let (name, end) = match Name::read_at(octets, at) {
        Ok(found) => found,
        Err(_) => return None,
    };
    if &octets[at..end] == name.wire() {
        Some(end)
    } else {
        None
    }
}
