//! Resource records and the fields of their RDATA (RFC 1035 sections 3.2 and 3.3, RFC 2181, RFC 4034 section 6).
#![tactic(auto)]

mod fields;
mod order;
mod rr;

pub use fields::{Field, fields_of, is_rdata};
pub use rr::{Rr, RrError, RrFault, Soa, is_bad_type};
