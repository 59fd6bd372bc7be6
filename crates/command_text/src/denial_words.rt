//! The words of the commands `nodata` and `noname`.

ghost use Rattle.std.specs.Prelude.{◌≡◌, ◌<◌, ◌^◌, IfOk, IsErrOf};
ghost use Rattle.dns_name.specs.Results.{result_map};
ghost use Rattle.ranked.specs.Body.{IsSoa};
ghost use Rattle.command_text.specs.declared.fault.LineFault.TheVariants.{NoMemory};
ghost use Rattle.command_text.specs.Fault.{Gives};
ghost use Rattle.command_text.specs.Deny.{soa_now, no_data_now, no_name_now, soa_words, no_data_words, no_name_words, soa_of, no_data_of, no_name_of};

use crate::admission_words::{read_datum, read_ttl};
use crate::common_words::{read_kind, read_name, read_word};
use crate::denial_find::Denial;
use crate::fault::LineFault;
use dns_text::{Record, Shared, Ttl, types};
use ranked::Scope;
use std::alloc::Global;

/// The word `OWNER`, and the text from `SOA-DATA` on.
#[derive(Clone, Copy)]
pub(crate) struct SoaWords<'a> {
    owner: &'a [u8],
    body: &'a [u8],
}

/// The words `NAME TTL TYPE`, and those of the SOA record.
#[derive(Clone, Copy)]
pub(crate) struct NoDataWords<'a> {
    name: &'a [u8],
    ttl: &'a [u8],
    kind: &'a [u8],
    soa: SoaWords<'a>,
}

/// The words `NAME TTL`, and those of the SOA record.
#[derive(Clone, Copy)]
pub(crate) struct NoNameWords<'a> {
    name: &'a [u8],
    ttl: &'a [u8],
    soa: SoaWords<'a>,
}

#[tactic(auto, unfolding(crate::specs::Deny::soa_words))]
fn soa_words(text: &[u8]) -> Result<SoaWords<'_>, LineFault>
    ensures value { result_map soa_now result ≡ soa_words text.now }
    ensures memory { IsErrOf result NoMemory → ⊥ }
{
    let (owner, body) = read_word(text)?;
    read_word(body)?;
    Ok(SoaWords { owner, body })
}

#[tactic(auto, unfolding(crate::specs::Deny::no_data_words))]
pub(crate) fn no_data_words(text: &[u8]) -> Result<NoDataWords<'_>, LineFault>
    ensures value { result_map no_data_now result ≡ no_data_words text.now }
    ensures memory { IsErrOf result NoMemory → ⊥ }
{
    let (name, rest) = read_word(text)?;
    let (ttl, rest) = read_word(rest)?;
    let (kind, rest) = read_word(rest)?;
    let soa = soa_words(rest)?;
    Ok(NoDataWords {
        name,
        ttl,
        kind,
        soa,
    })
}

#[tactic(auto, unfolding(crate::specs::Deny::no_name_words))]
pub(crate) fn no_name_words(text: &[u8]) -> Result<NoNameWords<'_>, LineFault>
    ensures value { result_map no_name_now result ≡ no_name_words text.now }
    ensures memory { IsErrOf result NoMemory → ⊥ }
{
    let (name, rest) = read_word(text)?;
    let (ttl, rest) = read_word(rest)?;
    let soa = soa_words(rest)?;
    Ok(NoNameWords { name, ttl, soa })
}

/// The SOA record, with the TTL of the negative answer.
#[tactic(auto, unfolding(crate::specs::Deny::soa_of))]
fn read_soa(alloc: Global, ttl: u32, words: SoaWords<'_>) -> Result<Shared<Record>, LineFault>
    requires { ttl < 2 ^ 31 }
    ensures value { Gives result (soa_of ttl (soa_now words.entry)) }
    ensures soa { IfOk result (λ r. IsSoa r) }
{
    let owner = read_name(alloc, words.owner)?;
    let body = read_datum(alloc, types::SOA, words.body)?;
    let ttl = Ttl::from_seconds(ttl).unwrap();
    let record = Record {
        owner,
        kind: types::SOA,
        ttl,
        body,
    };
    Ok(Shared::new(alloc, record)?)
}

/// The negative answer that the words of `nodata` give.
#[tactic(auto, unfolding(crate::specs::Deny::no_data_of))]
pub(crate) fn read_no_data(alloc: Global, words: NoDataWords<'_>) -> Result<Denial, LineFault>
    ensures { Gives result (no_data_of (no_data_now words.entry)) }
{
    let owner = read_name(alloc, words.name)?;
    let ttl = read_ttl(words.ttl).ok_or(LineFault::BadData)?;
    let kind = read_kind(words.kind)?;
    let soa = read_soa(alloc, ttl, words.soa)?;
    Ok(Denial {
        owner,
        scope: Scope::One(kind),
        ttl,
        soa,
    })
}

/// The negative answer that the words of `noname` give.
#[tactic(auto, unfolding(crate::specs::Deny::no_name_of))]
pub(crate) fn read_no_name(alloc: Global, words: NoNameWords<'_>) -> Result<Denial, LineFault>
    ensures { Gives result (no_name_of (no_name_now words.entry)) }
{
    let owner = read_name(alloc, words.name)?;
    let ttl = read_ttl(words.ttl).ok_or(LineFault::BadData)?;
    let soa = read_soa(alloc, ttl, words.soa)?;
    Ok(Denial {
        owner,
        scope: Scope::Whole,
        ttl,
        soa,
    })
}
