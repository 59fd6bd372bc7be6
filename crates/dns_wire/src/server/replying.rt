//! Replies that take no memory.

ghost use Rattle.std.specs.Prelude.{◌≡◌, ◌≤◌, ◌<◌, length, true, IfNone, IfSome};
ghost use Rattle.dns_name.specs.Labels.{IsName};
ghost use Rattle.dns_wire.specs.Read.Header.{head_in};
ghost use Rattle.dns_wire.specs.WellFormed.{IsHead};
ghost use Rattle.dns_wire.specs.Read.Message.{SpelledMessage};
ghost use Rattle.dns_wire.specs.Server.Replying.{fault_head, head_alone, cut_to, cut_octets};
ghost use Rattle.dns_wire.specs.Write.Header.{header_octets};
ghost use Rattle.dns_wire.specs.Write.Message.{octets_with};

use crate::limits::{HEADER_OCTETS, MOST_UDP_OCTETS};
use crate::message::Head;
use crate::rcode::Rcode;
use crate::read::header::head_in;
use crate::reserved::Reserved;
use crate::server::query::Query;
use crate::write::header::header_of;

/// An error reply: a header alone, with this RCODE and the identifier, the opcode and the RD bit of the query. None if
/// fewer than 12 octets came. It takes no memory.
pub fn fault_reply(octets: &[u8], rcode: Rcode) -> Option<[u8; HEADER_OCTETS]>
    ensures none { IfNone result (length octets.now < HEADER_OCTETS) }
    ensures some { IfSome result (λ reply. HEADER_OCTETS ≤ length octets.now) }
    ensures reply { IfSome result (λ reply. reply ≡ header_octets (fault_head (head_in octets.now) rcode) 0 0 0 0) }
    ensures spelled { IfSome result (λ reply. SpelledMessage reply (head_alone (fault_head (head_in octets.now) rcode))) }
{
    if octets.len() < HEADER_OCTETS {
        return None;
    }
    let query = head_in(octets);
    let head = Head {
        id: query.id,
        qr: true,
        opcode: query.opcode,
        aa: false,
        tc: false,
        rd: query.rd,
        ra: true,
        z: Reserved::ZERO,
        rcode,
    };
    Some(header_of(&head, 0, 0, 0, 0))
}

/// Truncates a reply to its header, with TC set, and the question.
#[tactic(auto, unfolding(crate::specs::Write::Message::octets_with))]
fn cut_to_question(reply: &mut Vec<u8>, query: &Query)
    requires { MOST_UDP_OCTETS < length reply.old.items }
    ensures cut { reply.new.items ≡ octets_with query.now.octets (cut_to query.now reply.old.items) }
    ensures short { length reply.new.items ≤ MOST_UDP_OCTETS }
    ensures name { IsName query.now.question.owner }
    ensures head { IsHead (record (head_in reply.old.items) { tc = true }) }
{
    let mut head = head_in(reply);
    head.tc = true;
    // The header, then a name, a type and a class.
    reply.truncate(HEADER_OCTETS + query.question.owner.wire_len() + 4);
    let (front, behind) = reply.split_at_mut(HEADER_OCTETS);
    front.copy_from_slice(&header_of(&head, 1, 0, 0, 0));
    behind.copy_from_slice(query.octets.as_slice());
}

/// Truncates a reply to the query to its header, with TC set, and the question, if it is too long for UDP (RFC 2181,
/// section 9). It takes no memory.
pub fn cut_for_udp(reply: &mut Vec<u8>, query: &Query)
    ensures bound { length reply.new.items ≤ MOST_UDP_OCTETS }
    ensures short { length reply.old.items ≤ MOST_UDP_OCTETS → reply.new.items ≡ reply.old.items }
    ensures cut { MOST_UDP_OCTETS < length reply.old.items → reply.new.items ≡ cut_octets query.now reply.old.items }
    ensures spelled { MOST_UDP_OCTETS < length reply.old.items → SpelledMessage reply.new.items (cut_to query.now reply.old.items) }
{
    if reply.len() > MOST_UDP_OCTETS {
        cut_to_question(reply, query);
    }
}
