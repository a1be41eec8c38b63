//! The records of an owner, found by one search in the index of a version, or by looks at a few owners near a place.
#![tactic(auto)]

mod runs;

pub use runs::{
    APEX, Addresses, NEAR, Node, addresses_near, addresses_of, node_above, node_at_or_of,
    node_near, node_of, node_of_wildcard, of_type, place_near, records_of, rrset_near, rrset_of,
};
