//! How many octets the stream of a version has.

ghost use Rattle.std.specs.Prelude.{◌≡◌, ◌≤◌, ◌<◌, ◌+◌, ◌*◌, ◌^◌, ◌++◌, ◌∷◌, [], List, length, filter};
ghost use Rattle.dz_record.specs.Record.{Record};
ghost use Rattle.dz_zone.specs.Version.{IsVersion};
ghost use Rattle.dz_message.specs.Frame.{stream};
ghost use Rattle.std.specs.List.{list_all};
ghost use Rattle.dz_message.specs.Piece.{octets_behind, total_of, written};
ghost use Rattle.dz_outward.specs.Stream.{fits_alone, is_fit, is_other, messages_of};

use dz_header::QUESTION_OCTETS;
use dz_message::Tally;
use dz_name::dns::{HEADER_OCTETS, MESSAGE_OCTETS, TRANSFER_OCTETS, TYPE_SOA};
use dz_record::Rr;
use dz_zone::Version;

/// Whether a version can be sent: each record fits into a message without a question, and the frames together have at
/// most 67,108,864 octets.
pub fn is_fit(version: &Version) -> bool
    ensures fit { result ≡ is_fit version.now }
    ensures version { IsVersion version.now }
{
    all_fit(version.records()) && stream_size(version) <= TRANSFER_OCTETS
}

/// How many octets the frames have.
fn stream_size(version: &Version) -> usize
    ensures { result ≡ length (stream (written (messages_of 0 version.now))) }
{
    let apex = version.apex().to_name();
    let mut tally = Tally::new(apex.wire().len() + QUESTION_OCTETS);
    let soa = version.apex_soa();
    tally.add(soa);
    add_others(version.records(), &mut tally);
    tally.add(soa);
    tally.total()
}

/// Whether each record fits into a message without a question.
fn all_fit(records: &[Rr]) -> bool
    ensures { result ≡ list_all fits_alone records.now }
{
    records
        .iter()
        .all(|rr| HEADER_OCTETS + rr.octets().len() <= MESSAGE_OCTETS)
}

/// Counts the records except the SOA.
fn add_others(records: &[Rr], tally: &mut Tally)
    requires few { total_of tally.old ≤ 200_000 }
    requires records { length records.now ≤ 250_000 }
    ensures counts { (rest : List Record)
        → octets_behind tally.old (filter is_other records.now ++ rest)
        ≡ octets_behind tally.new rest }
    ensures grows { total_of tally.new ≤ total_of tally.old + 70_000 * length records.now }
{
    'records: for rr in records {
        count_other(rr, tally);
    }
}

/// Counts a record where it isn't an SOA.
fn count_other(rr: &Rr, tally: &mut Tally)
    requires { total_of tally.old < 2 ^ 62 }
    ensures counts { (rest : List Record)
        → octets_behind tally.old (filter is_other (rr.now ∷ []) ++ rest)
        ≡ octets_behind tally.new rest }
    ensures grows { total_of tally.new ≤ total_of tally.old + 70_000 }
{
    if rr.kind() != TYPE_SOA {
        tally.add(rr);
    }
}
