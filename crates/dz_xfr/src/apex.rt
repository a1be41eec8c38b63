//! The SOA of a zone's apex.

ghost use Rattle.std.specs.Prelude.{◌≡◌};
ghost use Rattle.std.specs.Str.{bytes_eq};
ghost use Rattle.dz_xfr.specs.Apex.{is_apex_soa, apex_serial, held_serial};

use dz_name::Name;
use dz_name::dns::TYPE_SOA;
use dz_record::Rr;
use dz_zone::Version;

/// Whether a record is an SOA of the apex.
pub fn is_apex_soa(apex: &Name, found: &Rr) -> bool
    ensures { result ≡ is_apex_soa apex.now found.now }
{
    found.kind() == TYPE_SOA && found.is_owned_by(apex)
}

/// The serial of a record, where it is an SOA of the apex; `None` otherwise.
pub fn apex_serial(apex: &Name, found: &Rr) -> Option<u32>
    ensures { result ≡ apex_serial apex.now found.now }
{
    if !is_apex_soa(apex, found) {
        return None;
    }
    match found.soa() {
        Some(numbers) => Some(numbers.serial),
        None => None,
    }
}

/// Whether two records have the same RDATA.
pub fn same_rdata(a: &Rr, b: &Rr) -> bool
    ensures { result ≡ bytes_eq a.now.rdata b.now.rdata }
{
    a.rdata() == b.rdata()
}

/// The serial of a version.
pub fn held_serial(version: &Version) -> u32
    ensures { result ≡ held_serial version.now }
{
    version.soa().serial
}
