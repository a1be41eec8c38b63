//! The addresses that go with a referral.

ghost use Rattle.std.specs.Prelude.{◌≡◌, ◌<◌, ◌%◌, IsSome, length};
ghost use Rattle.dz_header.specs.Writing.{also};
ghost use Rattle.dz_reply.specs.Layout.{entries_octets};
ghost use Rattle.dz_reply.specs.Answer.{inner_target, glue_of, glue};
ghost use Rattle.dz_reply.specs.inner.Glue.{shown};

use crate::layout::put_own;
use dz_header::Writer;
use dz_lookup::Chain;
use dz_name::{Name, NameRef};
use dz_record::Rr;
use dz_runs::Addresses;
use dz_zone::Version;

/// A header counts records in two octets (RFC 1035 section 4.1.1).
const COUNTS: usize = 65_536;

/// Writes the glue of the name servers of the zone cut at which a chain ends: the addresses of each that is within the
/// zone, A records and then AAAA records (RFC 1034 section 4.3.2). The answer is how many records these are, modulo
/// 65,536. Each name server is searched once, and none once the writer is over.
pub fn put_glue(
    writer: &mut Writer,
    question: &Name,
    version: &Version,
    servers: &[Rr],
    chain: &Chain<'_>,
) -> usize
    ensures written { writer.new.writing
        ≡ also writer.old.writing (entries_octets question.now (glue version.now servers.now)) }
    ensures count { IsSome writer.new.writing.octets
        → result ≡ length (glue version.now servers.now) % COUNTS }
{
    let mut count = 0;
    let mut number: usize = 0;
    'servers: for server in servers {
        if writer.is_over() {
            return count;
        }
        let addresses = server_addresses(version, server, chain, number);
        put_one(writer, question, &addresses);
        count = (count + count_one(&addresses)) % COUNTS;
        number = number.saturating_add(1);
    }
    count
}

/// The addresses of the name server of this number, of the zone cut at which a chain ends; none where it isn't within
/// the zone.
fn server_addresses<'a>(
    version: &'a Version,
    server: &Rr,
    chain: &Chain<'_>,
    number: usize,
) -> Addresses<'a>
    ensures { shown result ≡ glue_of version.now server.now }
{
    match address_owner(version, server) {
        None => Addresses::none(),
        Some(name) => chain.addresses_of(version, &name, number),
    }
}

/// The name server that an NS record names, where it is within the zone.
fn address_owner<'a>(version: &Version, server: &'a Rr) -> Option<NameRef<'a>>
    ensures { result ≡ inner_target version.now server.now }
{
    let name = match server.target_ref() {
        None => return None,
        Some(name) => name,
    };
    if name.is_within(&version.apex()) {
        Some(name)
    } else {
        None
    }
}

/// How many records addresses are, modulo 65,536.
fn count_one(addresses: &Addresses) -> usize
    ensures value { result ≡ length (shown addresses.now) % COUNTS }
    ensures small { result < COUNTS }
{
    (addresses.four.len() % COUNTS + addresses.six.len() % COUNTS) % COUNTS
}

/// Writes the A records and then the AAAA records of a name server.
fn put_one(writer: &mut Writer, question: &Name, addresses: &Addresses)
    ensures { writer.new.writing
        ≡ also writer.old.writing (entries_octets question.now (shown addresses.now)) }
{
    put_own(writer, question, addresses.four);
    put_own(writer, question, addresses.six);
}
