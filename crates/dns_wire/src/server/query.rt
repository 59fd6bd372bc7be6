//! A query, as a server sees it.

ghost use Rattle.dns_wire.specs.Write.Question.{IsQuestionOctets};

use crate::rcode::Rcode;
use crate::server::spelling::QuestionOctets;
use dns_text::Question;

/// A query of one question of class IN, its name whole (RFC 1035, section 4.1.2).
#[derive(Drop)]
pub struct Query {
    /// The identifier, which a reply repeats.
    pub id: u16,
    /// Whether recursion is desired.
    pub rd: bool,
    /// The question.
    pub question: Question,
    /// The question's octets as received, with their upper and lower case: at most 259. A reply repeats them.
    pub octets: QuestionOctets,
    pub ghost spelled: { IsQuestionOctets octets question },
}

/// The request in the octets that a server received.
#[derive(Drop)]
pub enum Asked {
    /// No reply: the octets have no header, or are a response themselves.
    Drop,
    /// A reply of a header alone with this RCODE: `FORMAT_ERROR` if the octets are malformed, `NOT_IMPLEMENTED` if the
    /// request is not supported.
    Fault(Rcode),
    /// An answer to this query.
    Good(Query),
}
