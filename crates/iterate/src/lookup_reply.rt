//! The reply to a lookup, narrowed to what is valid for it.

ghost use Rattle.std.specs.Prelude.{◌≡◌, ◌↔◌, ◌∷◌, [], List, IfOk, IsTrue, MatchOption};
ghost use Rattle.std.specs.List.{AllByRecursion};
ghost use Rattle.dns_text.specs.declared.record.Data.{Data};
ghost use Rattle.dns_text.specs.declared.record.Data.TheVariants.{One};
ghost use Rattle.dns_name.specs.Labels.{Labels};
ghost use Rattle.ranked.specs.Body.{data_of};
ghost use Rattle.iterate.specs.declared.answer.AnswerSet.TheVariants.{Local as LocalTold};
ghost use Rattle.history.specs.declared.event.Reply.TheVariants.{Seen as SeenReply};
ghost use Rattle.history.specs.declared.event.Seen.TheVariants.{Held as SeenHeld, Local as SeenLocal};
ghost use Rattle.iterate.specs.declared.want.Input.TheVariants.{Reply as Replied};
ghost use Rattle.iterate.specs.Narrowed.{NarrowsReply, NarrowsSeen};
ghost use Rattle.iterate.specs.Shown.{IsShownFor, IsLocalRecord, IsLocalSet, IsSoaFormed, IsLocalFor};
ghost use Rattle.iterate.specs.Told.{data_told, local_data, told_of, IsTarget};
ghost use Rattle.iterate.specs.Looked.{seen_of, IsSetIn, IsUnseen};

use crate::answer::AnswerSet;
use crate::want::Input;
use dns_name::{Name, NoMemory};
use dns_text::types::CNAME;
use dns_text::{Data, Items, Shared};
use history::{Reply, Seen};
use local_zone::{Local, LocalRecord, SeenRecord};
use ranked::{Body, SharedFind, Shown};
use std::alloc::Global;

/// What the lookup of a question found.
#[derive(Clone, Copy)]
pub(crate) enum Looked<'a> {
    /// Nothing.
    Unknown,
    /// A cached find that is about the question and may answer it.
    Held(&'a Shown<SharedFind>),
    /// The answer of local zones.
    Local(&'a Local<Items<SeenRecord>, LocalRecord>),
}

/// Whether a find is about the question of this name and type, with a rank that is good enough to answer with (RFC 2181,
/// section 5.4.1).
pub(crate) fn is_shown_for(shown: &Shown<SharedFind>, owner: &Name, kind: u16) -> bool
    ensures { IsTrue result ↔ IsShownFor (record { owner = owner.now; kind = kind }) shown.now }
{
    let find = shown.body.find();
    find.touches(owner, kind) && find.rank.level() >= 2
}

/// Whether two names are the same.
pub(crate) fn is_name(name: &Name, other: &Name) -> bool
    ensures { IsTrue result ↔ (name.now ≡ other.now) }
{
    name == other
}

fn is_local_record(r: &SeenRecord, owner: &Name, kind: u16) -> bool
    ensures { IsTrue result ↔ IsLocalRecord (record { owner = owner.now; kind = kind }) r.now }
{
    r.kind() == kind && r.body().has_form(r.kind()) && is_name(r.owner(), owner)
}

fn are_local(records: &[SeenRecord], owner: &Name, kind: u16) -> bool
    ensures { IsTrue result ↔ AllByRecursion (IsLocalRecord (record { owner = owner.now; kind = kind })) records.now }
{
    for r in records {
        if !is_local_record(r, owner, kind) {
            return false;
        }
    }
    true
}

fn is_local_set(records: &[SeenRecord], owner: &Name, kind: u16) -> bool
    ensures { IsTrue result ↔ IsLocalSet (record { owner = owner.now; kind = kind }) records.now }
{
    !records.is_empty() && (are_local(records, owner, kind) || are_local(records, owner, CNAME))
}

fn is_soa_formed(soa: &Option<LocalRecord>) -> bool
    ensures { IsTrue result ↔ IsSoaFormed soa.now }
{
    match soa {
        Some(record) => record.body().has_form(record.kind()),
        None => true,
    }
}

/// Whether local zones may answer the question of this name and type so.
pub(crate) fn is_local_for(
    answer: &Local<Items<SeenRecord>, LocalRecord>,
    owner: &Name,
    kind: u16,
) -> bool
    ensures { IsTrue result ↔ IsLocalFor (record { owner = owner.now; kind = kind }) answer.now }
{
    match answer {
        Local::Data(records) => is_local_set(records.as_slice(), owner, kind),
        Local::NoData(soa) => is_soa_formed(soa),
        Local::NoName(soa) => is_soa_formed(soa),
        Local::Refuse => true,
        Local::Drop => true,
        Local::Pass => false,
    }
}

/// What was seen, if it is a valid reply to the lookup.
fn looked_in<'a>(seen: &'a Seen, owner: &Name, kind: u16) -> Option<Looked<'a>>
    ensures { NarrowsSeen (record { owner = owner.now; kind = kind }) seen.now result }
{
    match seen {
        Seen::Unknown => Some(Looked::Unknown),
        Seen::Held(shown) => {
            if is_shown_for(shown, owner, kind) {
                Some(Looked::Held(shown))
            } else {
                None
            }
        }
        Seen::Local(answer) => {
            if is_local_for(answer, owner, kind) {
                Some(Looked::Local(answer))
            } else {
                None
            }
        }
        _ => None,
    }
}

fn seen_in(input: &Input) -> Option<&Seen>
    ensures { MatchOption result (IsUnseen input.now) (λ seen. input.now ≡ Replied (SeenReply seen.now)) }
{
    match input {
        Input::Reply(Reply::Seen(seen)) => Some(seen),
        _ => None,
    }
}

/// What the lookup of the question of this name and type found. None if the reply is not valid for it.
pub(crate) fn replied<'a>(input: &'a Input, owner: &Name, kind: u16) -> Option<Looked<'a>>
    ensures { NarrowsReply (record { owner = owner.now; kind = kind }) input.now result }
{
    match seen_in(input) {
        Some(seen) => looked_in(seen, owner, kind),
        None => None,
    }
}

fn share_records(alloc: Global, records: &[SeenRecord]) -> Result<Items<SeenRecord>, NoMemory>
    ensures { IfOk result (λ x. x ≡ records.now) }
{
    let mut shares = Vec::new(alloc);
    for r in records {
        shares.push(r.share()?)?;
    }
    Ok(Items::new(shares))
}

/// A set of a local zone, as a set of an answer.
pub(crate) fn copy_set(alloc: Global, records: &Items<SeenRecord>) -> Result<AnswerSet, NoMemory>
    ensures { IfOk result (λ told. told ≡ LocalTold records.now) }
{
    let shares = share_records(alloc, records.as_slice())?;
    Ok(AnswerSet::Local(Shared::new(alloc, shares)?))
}

/// A cached set, with the seconds left.
pub(crate) fn held_set(shown: &Shown<SharedFind>) -> Result<AnswerSet, NoMemory>
    ensures { IfOk result (λ told. told ≡ told_of shown.now) }
{
    Ok(AnswerSet::Find {
        ttl: shown.left,
        find: shown.body.share()?,
    })
}

/// A cached set, unless the find is negative.
fn set_held(shown: &Shown<SharedFind>) -> Result<Option<AnswerSet>, NoMemory>
    ensures { IfOk result (IsSetIn (SeenHeld shown.now)) }
{
    match &shown.body.find().body {
        Body::Set(_) => Ok(Some(held_set(shown)?)),
        _ => Ok(None),
    }
}

fn local_set(
    alloc: Global,
    answer: &Local<Items<SeenRecord>, LocalRecord>,
) -> Result<Option<AnswerSet>, NoMemory>
    ensures { IfOk result (IsSetIn (SeenLocal answer.now)) }
{
    match answer {
        Local::Data(records) => Ok(Some(copy_set(alloc, records)?)),
        _ => Ok(None),
    }
}

/// The set that a lookup found, if it found one.
pub(crate) fn set_in(alloc: Global, what: Looked<'_>) -> Result<Option<AnswerSet>, NoMemory>
    ensures { IfOk result (IsSetIn (seen_of what.entry)) }
{
    match what {
        Looked::Unknown => Ok(None),
        Looked::Held(shown) => set_held(shown),
        Looked::Local(answer) => local_set(alloc, answer),
    }
}

fn first_of(items: &[Data]) -> Option<&Data>
    ensures { MatchOption result (items.now ≡ []) (λ datum. (rest : List Data) × (items.now ≡ datum.now ∷ rest)) }
{
    items.first()
}

/// The first datum of a find, unless it is negative.
fn first_found(body: &Body) -> Option<&Data>
    ensures { MatchOption result (data_of body.now ≡ []) (λ datum. (rest : List Data) × (data_of body.now ≡ datum.now ∷ rest)) }
{
    match body {
        Body::Set(data) => first_of(data.as_slice()),
        _ => None,
    }
}

fn first_local(records: &[SeenRecord]) -> Option<&Data>
    ensures { MatchOption result (local_data records.now ≡ []) (λ datum. (rest : List Data) × (local_data records.now ≡ datum.now ∷ rest)) }
{
    match records.first() {
        Some(record) => Some(record.body()),
        None => None,
    }
}

/// The first datum of a set.
fn first_datum(told: &AnswerSet) -> Option<&Data>
    ensures { MatchOption result (data_told told.now ≡ []) (λ datum. (rest : List Data) × (data_told told.now ≡ datum.now ∷ rest)) }
{
    match told {
        AnswerSet::Find { find, .. } => first_found(&find.find().body),
        AnswerSet::Local(records) => first_local(records.get().as_slice()),
        AnswerSet::Passing(set) => first_of(set.get().data.as_slice()),
    }
}

/// The name in a datum, if it holds one name.
fn name_in(datum: &Data) -> Result<Option<Name>, NoMemory>
    ensures { IfOk result (λ to. MatchOption to ((name : Labels) → ¬ (datum.now ≡ One name)) (λ name. datum.now ≡ One name)) }
{
    match datum {
        Data::One(name) => Ok(Some(name.clone()?)),
        _ => Ok(None),
    }
}

/// The first target of a set of aliases.
pub(crate) fn first_target(told: &AnswerSet) -> Result<Option<Name>, NoMemory>
    ensures { IfOk result (λ to. MatchOption to ((name : Labels) → ¬ (IsTarget told.now name)) (IsTarget told.now)) }
{
    match first_datum(told) {
        Some(datum) => name_in(datum),
        None => Ok(None),
    }
}
