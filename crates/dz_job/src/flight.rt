//! What jobs ask for.

use dz_io::Peer;
use dz_name::Name;
use dz_take::Ask;

/// What a job asks for.
#[derive(Clone, Copy, Debug)]
pub struct Flight {
    /// The number of the job, from 1.
    pub ticket: u64,
    pub zone: Name,
    /// The position of the entry that the zone began by; 0 for a catalog.
    pub incarnation: u64,
    pub ask: Ask,
    /// The ID of the query.
    pub id: u16,
    /// The primary that is asked.
    pub primary: Peer,
    /// The moment of the job in seconds, below 2^40.
    pub moment: u64,
    /// How many entries the list of taken transfers had as the job was handed out.
    pub entries: u64,
}
