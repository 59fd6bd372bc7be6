//! The words of the command `admit`.

ghost use Rattle.std.specs.Prelude.{◌≡◌, ◌≤◌, ◌<◌, ◌^◌, IfOk, IfSome, IsErrOf, length};
ghost use Rattle.std.specs.List.{AllByRecursion};
ghost use Rattle.dns_name.specs.Results.{or_fault, result_map};
ghost use Rattle.dns_text.specs.Data.{data_in, HasForm};
ghost use Rattle.command_text.specs.declared.fault.LineFault.TheVariants.{BadData, NoMemory};
ghost use Rattle.command_text.specs.Fault.{Gives};
ghost use Rattle.command_text.specs.Bar.{pieces};
ghost use Rattle.command_text.specs.Admit.{words_now, admit_words, rank_in, ttl_in, data_of, given_of};

use crate::admission_find::Admission;
use crate::common_words::{read_kind, read_name, read_word};
use crate::fault::LineFault;
use crate::set_data::cut_at_bar;
use dns_text::{Data, Items, MOST_TTL, TextFault, read_data, read_number};
use ranked::Rank;
use std::alloc::Global;

/// The words `RANK NAME TTL TYPE`, and the text from `DATA` on.
#[derive(Clone, Copy)]
pub(crate) struct AdmitWords<'a> {
    rank: &'a [u8],
    name: &'a [u8],
    ttl: &'a [u8],
    kind: &'a [u8],
    body: &'a [u8],
}

#[tactic(auto, unfolding(crate::specs::Admit::admit_words))]
pub(crate) fn admit_words(text: &[u8]) -> Result<AdmitWords<'_>, LineFault>
    ensures value { result_map words_now result ≡ admit_words text.now }
    ensures memory { IsErrOf result NoMemory → ⊥ }
{
    let (rank, rest) = read_word(text)?;
    let (name, rest) = read_word(rest)?;
    let (ttl, rest) = read_word(rest)?;
    let (kind, body) = read_word(rest)?;
    read_word(body)?;
    Ok(AdmitWords {
        rank,
        name,
        ttl,
        kind,
        body,
    })
}

fn read_rank(word: &[u8]) -> Option<Rank>
    ensures { result ≡ rank_in word.now }
{
    Rank::from_level(read_number(word, 4)?)
}

pub(crate) fn read_ttl(word: &[u8]) -> Option<u32>
    ensures value { result ≡ ttl_in word.now }
    ensures some { IfSome result (λ ttl. 1 ≤ ttl) }
    ensures range { IfSome result (λ ttl. ttl < 2 ^ 31) }
{
    let ttl = read_number(word, MOST_TTL)?;
    if ttl == 0 { None } else { Some(ttl as u32) }
}

pub(crate) fn read_datum(alloc: Global, kind: u16, text: &[u8]) -> Result<Data, LineFault>
    ensures value { Gives result (or_fault BadData (data_in kind text.now)) }
    ensures form { IfOk result (λ datum. HasForm kind datum) }
{
    match read_data(alloc, kind, text) {
        Ok(datum) => Ok(datum),
        Err(TextFault::NoMemory) => Err(LineFault::NoMemory),
        Err(_) => Err(LineFault::BadData),
    }
}

/// The data that are written between the bars.
fn read_set(alloc: Global, kind: u16, text: &[u8]) -> Result<Items<Data>, LineFault>
    ensures value { Gives result (or_fault BadData (data_of kind (pieces text.now))) }
    ensures some { IfOk result (λ items. 1 ≤ length items) }
    ensures formed { IfOk result (λ items. AllByRecursion (HasForm kind) items) }
{
    let mut data = Vec::new(alloc);
    let mut rest = text;
    while let Some((piece, after)) = cut_at_bar(rest) {
        data.push(read_datum(alloc, kind, piece)?)?;
        rest = after;
    }
    // The cache keeps them, and most sets have one datum: room for no more.
    data.reserve_exact(1)?;
    data.push(read_datum(alloc, kind, rest)?)?;
    Ok(Items::new(data))
}

/// The set that the words give.
#[tactic(auto, unfolding(crate::specs::Admit::given_of))]
pub(crate) fn read_admission(alloc: Global, words: AdmitWords<'_>) -> Result<Admission, LineFault>
    ensures { Gives result (given_of (words_now words.entry)) }
{
    let rank = read_rank(words.rank).ok_or(LineFault::BadData)?;
    let owner = read_name(alloc, words.name)?;
    let ttl = read_ttl(words.ttl).ok_or(LineFault::BadData)?;
    let kind = read_kind(words.kind)?;
    let body = read_set(alloc, kind, words.body)?;
    Ok(Admission {
        rank,
        owner,
        ttl,
        kind,
        body,
    })
}
