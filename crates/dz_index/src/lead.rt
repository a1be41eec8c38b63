//! First octets of sort keys.

ghost use Rattle.std.specs.Prelude.{◌≡◌};
ghost use Rattle.dz_index.specs.Lead.{lead_of};

/// How many octets of a sort key are beside a name, where they tell most names apart.
pub const LEAD: usize = 16;

/// The first octets of a sort key, with zeros after them where they are few. Where those of two keys differ, the keys are
/// ordered as these are.
pub fn lead_of(octets: &[u8]) -> [u8; LEAD]
    ensures { result ≡ lead_of 16 octets.now }
{
    let mut lead = [0; LEAD];
    let count = octets.len().min(LEAD);
    lead[..count].copy_from_slice(&octets[..count]);
    lead
}
