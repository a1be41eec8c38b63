//! The numbers of the DNS (IANA, Domain Name System Parameters; RFC 6895), and its limits. Code and definitions cite
//! them by these names.

/// An IPv4 address (RFC 1035 section 3.4.1).
pub const TYPE_A: u16 = 1;
/// An authoritative name server (RFC 1035 section 3.3.11).
pub const TYPE_NS: u16 = 2;
/// A mail destination, obsolete (RFC 1035 section 3.3.4).
pub const TYPE_MD: u16 = 3;
/// A mail forwarder, obsolete (RFC 1035 section 3.3.5).
pub const TYPE_MF: u16 = 4;
/// The canonical name of an alias (RFC 1035 section 3.3.1).
pub const TYPE_CNAME: u16 = 5;
/// The start of a zone of authority (RFC 1035 section 3.3.13).
pub const TYPE_SOA: u16 = 6;
/// A mailbox (RFC 1035 section 3.3.3).
pub const TYPE_MB: u16 = 7;
/// A member of a mail group (RFC 1035 section 3.3.6).
pub const TYPE_MG: u16 = 8;
/// The new name of a mailbox (RFC 1035 section 3.3.8).
pub const TYPE_MR: u16 = 9;
/// A pointer to another name (RFC 1035 section 3.3.12).
pub const TYPE_PTR: u16 = 12;
/// The mailbox responsible for a mailing list or a mailbox (RFC 1035 section 3.3.7).
pub const TYPE_MINFO: u16 = 14;
/// A mail exchange (RFC 1035 section 3.3.9).
pub const TYPE_MX: u16 = 15;
/// Character strings (RFC 1035 section 3.3.14).
pub const TYPE_TXT: u16 = 16;
/// A responsible person (RFC 1183 section 2).
pub const TYPE_RP: u16 = 17;
/// A server of the Andrew file system (RFC 1183 section 1).
pub const TYPE_AFSDB: u16 = 18;
/// A route-through host (RFC 1183 section 3.3).
pub const TYPE_RT: u16 = 21;
/// A signature of the first DNSSEC (RFC 2535), which no zone holds here.
pub const TYPE_SIG: u16 = 24;
/// A mapping of X.400 mail addresses (RFC 2163).
pub const TYPE_PX: u16 = 26;
/// An IPv6 address (RFC 3596 section 2.1).
pub const TYPE_AAAA: u16 = 28;
/// The next name of the first DNSSEC (RFC 2535), which no zone holds here.
pub const TYPE_NXT: u16 = 30;
/// The place of a service (RFC 2782).
pub const TYPE_SRV: u16 = 33;
/// A naming authority pointer (RFC 3403).
pub const TYPE_NAPTR: u16 = 35;
/// A key exchanger (RFC 2230).
pub const TYPE_KX: u16 = 36;
/// An IPv6 address in pieces (RFC 2874), which no zone holds here.
pub const TYPE_A6: u16 = 38;
/// The redirection of a subtree (RFC 6672).
pub const TYPE_DNAME: u16 = 39;
/// The pseudo-record of EDNS (RFC 6891), which no zone holds.
pub const TYPE_OPT: u16 = 41;
/// The digest of a key of a child zone (RFC 4034 section 5).
pub const TYPE_DS: u16 = 43;
/// A signature (RFC 4034 section 3).
pub const TYPE_RRSIG: u16 = 46;
/// The next owner name, and the types at an owner name (RFC 4034 section 4).
pub const TYPE_NSEC: u16 = 47;
/// A digest of a zone (RFC 8976).
pub const TYPE_ZONEMD: u16 = 63;
/// The first of the QTYPEs and Meta-TYPEs from 249 to 255: TKEY (RFC 2930).
pub const TYPE_TKEY: u16 = 249;
/// The QTYPE for the differences from a version of a zone (RFC 1995).
pub const TYPE_IXFR: u16 = 251;
/// The QTYPE for a whole zone (RFC 5936).
pub const TYPE_AXFR: u16 = 252;
/// The QTYPE for records of mail agents, obsolete (RFC 1035 section 3.2.3).
pub const TYPE_MAILA: u16 = 254;
/// The QTYPE for all types (RFC 1035 section 3.2.3, RFC 8482).
pub const TYPE_ANY: u16 = 255;

/// The Internet (RFC 1035 section 3.2.4).
pub const CLASS_IN: u16 = 1;

/// A query (RFC 1035 section 4.1.1).
pub const OPCODE_QUERY: u16 = 0;
/// A NOTIFY (RFC 1996 section 3).
pub const OPCODE_NOTIFY: u16 = 4;

/// The maximum length of a label in octets (RFC 1035 section 3.1).
pub const LABEL_OCTETS: usize = 63;
/// The maximum length of the wire form of a name in octets (RFC 1035 section 3.1).
pub const NAME_OCTETS: usize = 255;
/// The length of a header in octets (RFC 1035 section 4.1.1).
pub const HEADER_OCTETS: usize = 12;
/// The maximum length of a message, and of RDATA, in octets, since either length has two octets (RFC 1035 sections
/// 4.1.3 and 4.2.2).
pub const MESSAGE_OCTETS: usize = 65_535;
/// The size in octets of the length field before a message over TCP (RFC 1035 section 4.2.2).
pub const LENGTH_OCTETS: usize = 2;
/// The maximum length in octets of a reply over UDP without EDNS (RFC 1035 section 4.2.1).
pub const UDP_OCTETS: usize = 512;
/// The maximum length in octets of a reply over UDP with EDNS, which fits Ethernet and IPv6 without fragmentation (RFC
/// 6891 section 6.2.5).
pub const EDNS_OCTETS: usize = 1232;
/// The maximum number of CNAME records in an answer.
pub const ALIASES: usize = 16;
/// The maximum number of records in a zone.
pub const ZONE_RECORDS: usize = 250_000;
/// The maximum length of a transfer in octets, counting the length field before each message: 64 MiB.
pub const TRANSFER_OCTETS: usize = 67_108_864;
