//! Lines, and what is in one.

ghost use Rattle.std.specs.Prelude.{◌≡◌, ◌≢◌, ℕ, List, map, option_map, All, IfOk, IfErr, IfSome, OnOk, IsFalse};
ghost use Rattle.std.specs.Str.{IsTrimAsciiStart};
ghost use Rattle.std.specs.Io.BufRead.{first_piece, DropsThrough};
ghost use Rattle.std.specs.Io.KnownBytes.{IsAtEnd};
ghost use Rattle.dns_name.specs.Results.{or_fault, result_map, GivesBut};
ghost use Rattle.dns_text.specs.Addr.{addr_in};
ghost use Rattle.dns_text.specs.Field.{number_at};
ghost use Rattle.play.specs.Words.{octets_in, EachSays, OneSaysNothing};

use crate::stop::Stop;
use dns_text::{Addr, next_word, read_addr, read_number};
use hex::FromHexError;
use std::alloc::Global;
use std::io::BufRead;

/// Reads a line without its end; false at the end of the input. Where it fails, a part of the line may be there.
pub fn next_line<I: BufRead>(input: &mut I, line: &mut Vec<u8>) -> Result<bool, Stop>
    ensures plain { OnOk result (All (λ x. x ≢ 10) line.new.items) }
    ensures line { OnOk result (IfSome (I.remaining input.old) (λ xs. line.new.items ≡ first_piece 10 xs)) }
    ensures rest { OnOk result (DropsThrough (I.remaining input.old) (I.remaining input.new) 10) }
    ensures end { IfOk result (λ more. IsFalse more → IsAtEnd (I.remaining input.old)) }
{
    line.clear();
    if input.read_until(b'\n', line)? == 0 {
        return Ok(false);
    }
    if let [.., b'\n'] = line.as_slice() {
        line.pop();
    }
    Ok(true)
}

/// The number that a text begins with, and what is after it and the blanks there.
pub fn number_and_rest(text: &[u8]) -> Result<(u64, &[u8]), Stop>
    ensures ok { IfOk result (λ r. (rest : List ℕ) × (number_at u64.MAX text.now ≡ Some (r.0, rest)) × IsTrimAsciiStart rest r.1.now) }
    ensures err { IfErr result (λ stop. (stop ≡ Stop.Device) × (number_at u64.MAX text.now ≡ None)) }
{
    let (word, rest) = next_word(text).ok_or(Stop::Device)?;
    let number = read_number(word, u64::MAX).ok_or(Stop::Device)?;
    Ok((number, rest.trim_ascii_start()))
}

/// The number that a text begins with.
pub fn number_in(text: &[u8]) -> Result<u64, Stop>
    ensures { result ≡ or_fault Stop.Device (option_map (λ r. r.0) (number_at u64.MAX text.now)) }
{
    let (number, _) = number_and_rest(text)?;
    Ok(number)
}

/// The address that a word says.
pub fn addr_in(word: &[u8]) -> Result<Addr, Stop>
    ensures { result ≡ or_fault Stop.Device (addr_in word.now) }
{
    match read_addr(word) {
        Ok(addr) => Ok(addr),
        Err(_) => Err(Stop::Device),
    }
}

/// The addresses of a text, each a word.
pub fn addrs_in(alloc: Global, text: &[u8]) -> Result<Vec<Addr>, Stop>
    ensures ok { IfOk result (λ addrs. EachSays addr_in text.now addrs.items) }
    ensures err { IfErr result (λ stop. stop ≡ Stop.Device → OneSaysNothing addr_in text.now) }
{
    let mut addrs = Vec::new(alloc);
    let mut rest = text;
    while let Some((word, behind)) = next_word(rest) {
        addrs.push(addr_in(word)?)?;
        rest = behind;
    }
    Ok(addrs)
}

/// Octets from hexadecimal digits; `-` is none.
pub fn octets_in(alloc: Global, digits: &[u8]) -> Result<Vec<u8>, Stop>
    ensures { GivesBut Stop.NoMemory (result_map (λ v. v.items) result) (or_fault Stop.Device (octets_in digits.now)) }
{
    if digits == b"-".as_slice() {
        return Ok(Vec::new(alloc));
    }
    match hex::decode(alloc, digits) {
        Ok(octets) => Ok(octets),
        Err(FromHexError::OutOfMemory) => Err(Stop::NoMemory),
        Err(_) => Err(Stop::Device),
    }
}

/// Pieces, each a word of octets.
pub fn pieces_in(alloc: Global, text: &[u8]) -> Result<Vec<Vec<u8>>, Stop>
    ensures ok { IfOk result (λ pieces. EachSays octets_in text.now (map (λ v. v.items) pieces.items)) }
    ensures err { IfErr result (λ stop. stop ≡ Stop.Device → OneSaysNothing octets_in text.now) }
{
    let mut pieces = Vec::new(alloc);
    let mut rest = text;
    while let Some((word, behind)) = next_word(rest) {
        pieces.push(octets_in(alloc, word)?)?;
        rest = behind;
    }
    Ok(pieces)
}
