//! The stream of a version.

ghost use Rattle.std.specs.Prelude.{◌≡◌, ◌++◌, ◌∷◌, [], true, filter, IfOk, OnOk};
ghost use Rattle.dz_message.specs.Frame.{stream};
ghost use Rattle.dz_message.specs.Piece.{written};
ghost use Rattle.dz_outward.specs.Stream.{is_fit, is_other, messages_of, sent_records};

use dz_header::Question;
use dz_message::pack;
use dz_name::Octets;
use dz_name::dns::{CLASS_IN, TYPE_AXFR, TYPE_SOA};
use dz_record::Rr;
use dz_zone::Version;
use std::alloc::{AllocError, Global};

/// The messages of a version's transfer with ID 0, each after its length (RFC 5936 section 2.2). The version can be
/// sent.
pub(crate) fn stream_of(alloc: Global, version: &Version) -> Result<Octets, AllocError>
    requires { is_fit version.now ≡ true }
    ensures { IfOk result (λ octets. octets ≡ stream (written (messages_of 0 version.now))) }
{
    let question = Question {
        name: version.apex().to_name(),
        kind: TYPE_AXFR,
        class: CLASS_IN,
    };
    let records = sent_records(alloc, version)?;
    pack(alloc, 0, &question, records.as_slice())
}

/// The SOA, the other records, and the SOA again.
fn sent_records(alloc: Global, version: &Version) -> Result<Vec<Rr>, AllocError>
    ensures { IfOk result (λ records. records.items ≡ sent_records version.now) }
{
    let mut records = Vec::with_capacity(alloc, version.records().len() + 1)?;
    let soa = version.apex_soa();
    records.push(soa.share()?)?;
    put_others(version.records(), &mut records)?;
    records.push(soa.share()?)?;
    Ok(records)
}

/// Puts the records but the SOA after others.
fn put_others(records: &[Rr], out: &mut Vec<Rr>) -> Result<(), AllocError>
    ensures { OnOk result (out.new.items ≡ out.old.items ++ filter is_other records.now) }
{
    'records: for rr in records {
        if rr.kind() != TYPE_SOA {
            out.push(rr.share()?)?;
        }
    }
    Ok(())
}
