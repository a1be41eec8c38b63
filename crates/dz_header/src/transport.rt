//! Transports (RFC 1035 section 4.2).

/// How a request arrived, and how its reply is sent.
#[derive(Clone, Copy, Debug, PartialEq, Eq)]
pub enum Transport {
    Udp,
    Tcp,
}
