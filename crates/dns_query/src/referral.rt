//! Referrals to servers nearer to a name.

ghost use Rattle.std.specs.Prelude.{◌≡◌, map, IfOk};
ghost use Rattle.neg_rule.specs.Negative.{said_by};
ghost use Rattle.harvest.specs.Harvest.{finds_in, passing_in};
ghost use Rattle.harvest.specs.Learnt.{set_of};
ghost use Rattle.dns_query.specs.Referral.{AreServers, FindsReferral};

use crate::referred_zone::zone_of;
use crate::servers::{add_server, addrs_by_name, targets_in};
use crate::verdict::Referral;
use dns_name::{Name, NoMemory};
use dns_text::{Items, Question};
use dns_wire::Message;
use harvest::Harvest;
use std::alloc::Global;

/// The servers of these names, for a zone.
fn servers_named(
    alloc: Global,
    port: u16,
    harvest: &Harvest,
    zone: &Name,
    targets: &Vec<Name>,
) -> Result<Referral, NoMemory>
    ensures zone { IfOk result (λ referral. referral.zone ≡ zone.now) }
    ensures servers { IfOk result (AreServers port (map said_by harvest.now.finds) (map set_of harvest.now.passing) targets.now.items) }
{
    let index = addrs_by_name(alloc, port, harvest)?;
    let mut addrs = Vec::new(alloc);
    let mut missing = Vec::new(alloc);
    for target in targets {
        add_server(&index, target, &mut addrs, &mut missing)?;
    }
    Ok(Referral {
        zone: zone.clone()?,
        addrs: Items::new(addrs),
        missing: Items::new(missing),
    })
}

/// The servers to which a response from a zone refers.
pub(crate) fn referral_of(
    alloc: Global,
    port: u16,
    zone: &Name,
    question: &Question,
    message: &Message,
    harvest: &Harvest,
) -> Result<Option<Referral>, NoMemory>
    requires finds { map said_by harvest.now.finds ≡ finds_in message.now question.now zone.now }
    requires passing { map set_of harvest.now.passing ≡ passing_in message.now question.now zone.now }
    ensures { IfOk result (λ found. FindsReferral port zone.now question.now message.now found) }
{
    match zone_of(zone, message) {
        None => Ok(None),
        Some(nearer) => {
            if !question.owner.at_or_below(nearer) {
                return Ok(None);
            }
            let targets = targets_in(alloc, message.authority.as_slice())?;
            let referral = servers_named(alloc, port, harvest, nearer, &targets)?;
            Ok(Some(referral))
        }
    }
}
