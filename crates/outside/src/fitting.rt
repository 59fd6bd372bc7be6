//! The test whether octets may be the reply to a query.

ghost use Rattle.std.specs.Prelude.{◌≡◌, ◌↔◌, IsTrue};
ghost use Rattle.outside.specs.Fits.{Fits};

/// The datagrams that cannot be the reply after which an exchange fails. Each is a guess at the identifier of the query, and the
/// socket of the exchange takes no more of them (RFC 5452, section 9.2).
pub const MOST_MISFITS: u8 = 2;

/// Whether two runs of octets are equal.
fn same(one: &[u8], other: &[u8]) -> bool
    ensures { IsTrue result ↔ (one.now ≡ other.now) }
{
    one == other
}

/// Whether octets may be the reply to a query: a response with its identifier and its question (RFC 5452, section 9.1).
pub fn fits(query: &[u8], reply: &[u8]) -> bool
    ensures { IsTrue result ↔ Fits query.now reply.now }
{
    let end = query.len();
    if end < 16 || reply.len() < end || reply[2] < 128 {
        return false;
    }
    same(&reply[..2], &query[..2])
        && same(&reply[4..6], &query[4..6])
        && reply[12..end - 4].eq_ignore_ascii_case(&query[12..end - 4])
        && same(&reply[end - 4..end], &query[end - 4..end])
}
