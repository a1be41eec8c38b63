//! What comes of the octets of a transfer (RFC 5936, RFC 1995), message by message.
#![tactic(auto)]

mod ask;
mod finished;
mod judge;
mod laws;
mod outcome;
mod state;
mod taking;
mod transfer;

pub use ask::Ask;
pub use dz_message::MessageFault;
pub use dz_tsig::TsigFault;
pub use dz_xfr::{Progress, ShapeFault};
pub use dz_zone::ZoneFault;
pub use dz_zonemd::Standing;
pub use finished::Finished;
pub use laws::{first_decides, form_decides, messages_decide, outcomes_fit};
pub use outcome::{Outcome, TakeFault};
pub use taking::Taking;
