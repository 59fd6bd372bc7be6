//! Record types by number (RFC 1035, sections 3.2.2 and 3.2.3, unless another is named).

/// An IPv4 address.
pub const A: u16 = 1;
/// A name server of a zone.
pub const NS: u16 = 2;
/// Obsolete: a mail destination.
pub const MD: u16 = 3;
/// Obsolete: a mail forwarder.
pub const MF: u16 = 4;
/// The name that an alias stands for.
pub const CNAME: u16 = 5;
/// The start of a zone of authority.
pub const SOA: u16 = 6;
/// Obsolete: a mailbox.
pub const MB: u16 = 7;
/// Obsolete: a member of a mail group.
pub const MG: u16 = 8;
/// Obsolete: a renamed mailbox.
pub const MR: u16 = 9;
/// A pointer to another name.
pub const PTR: u16 = 12;
/// Obsolete: the mailboxes of a mail list.
pub const MINFO: u16 = 14;
/// A mail exchange.
pub const MX: u16 = 15;
/// Text strings.
pub const TXT: u16 = 16;
/// An IPv6 address (RFC 3596, section 2.1).
pub const AAAA: u16 = 28;
/// The place of a service (RFC 2782).
pub const SRV: u16 = 33;
/// A rule that rewrites a name (RFC 3403, section 4).
pub const NAPTR: u16 = 35;
/// An alias of a whole subtree (RFC 6672, section 2.1).
pub const DNAME: u16 = 39;
/// Options of a message, EDNS (RFC 6891, section 6.1.1).
pub const OPT: u16 = 41;
/// An incremental zone transfer (RFC 1995, section 2): the first of the types that only questions have.
pub const IXFR: u16 = 251;
/// `*`, every type: the last of the types that only questions have.
pub const ANY: u16 = 255;
