//! The first line of `answer`.

ghost use Rattle.std.specs.Prelude.{◌≡◌, ◌≤◌, IfOk, IfSome, Some, length, option_map};
ghost use Rattle.dz_name.specs.declared.dns.TheConstants.{MESSAGE_OCTETS};
ghost use Rattle.dz_run.specs.ZoneLine.{two_fields, zone_line};

use dz_name::Name;
use dz_script::read_octets;
use dz_settings::cut;
use std::alloc::{AllocError, Global};

/// The name of the apex and the octets of the message in `zone <name> <hex>`; none where the line is of another form.
pub fn read_zone_line(alloc: Global, line: &[u8]) -> Result<Option<(Name, Vec<u8>)>, AllocError>
    ensures fields { IfOk result (λ r. option_map (λ x. (x.0, x.1.items)) r ≡ zone_line line.now) }
    ensures short { IfOk result (λ r. IfSome r (λ x. length x.1.items ≤ MESSAGE_OCTETS)) }
{
    if !line.starts_with(b"zone ") {
        return Ok(None);
    }
    match cut(b' ', line.split_at(5).1) {
        None => Ok(None),
        Some((name, text)) => read_fields(alloc, name, text),
    }
}

/// The name and the octets of these fields; none where one is of another form.
fn read_fields(
    alloc: Global,
    name: &[u8],
    text: &[u8],
) -> Result<Option<(Name, Vec<u8>)>, AllocError>
    ensures fields { IfOk result
        (λ r. option_map (λ x. (x.0, x.1.items)) r ≡ two_fields (Some (name.now, text.now))) }
    ensures short { IfOk result (λ r. IfSome r (λ x. length x.1.items ≤ MESSAGE_OCTETS)) }
{
    match Name::parse(name) {
        Err(_) => Ok(None),
        Ok(name) => match read_octets(alloc, text)? {
            None => Ok(None),
            Some(octets) => Ok(Some((name, octets))),
        },
    }
}
