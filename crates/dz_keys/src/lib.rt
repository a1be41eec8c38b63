//! Zones and labels as the keys of maps in shared chunks, each after its first octets.
#![tactic(auto)]

mod label_key;
mod zone_key;

pub use label_key::LabelKey;
pub use zone_key::ZoneKey;
