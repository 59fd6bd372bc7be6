//! The text of the servers of a name.

ghost use Rattle.std.specs.Prelude.{◌≡◌, ◌++◌, IfOk, OnOk, codes};
ghost use Rattle.streams.specs.Split.{with_end};
ghost use Rattle.command_text.specs.Text.{source_text, names_text, missing_text, servers_text};

use crate::addrs::push_addrs;
use dns_name::Name;
use dns_text::NoMemory;
use history::{Origin, Servers};
use std::alloc::Global;

fn source_word(source: Origin) -> &'static [u8]
    ensures { result.now ≡ source_text source }
{
    match source {
        Origin::Hints => b"hints",
        Origin::Stub => b"stub",
        Origin::Cache => b"cache",
    }
}

/// Writes names, each after a blank.
fn push_names(names: &[Name], out: &mut Vec<u8>) -> Result<(), NoMemory>
    ensures { OnOk result (out.new.items ≡ out.old.items ++ names_text names.now) }
{
    for name in names {
        out.push(b' ')?;
        name.push_text(out)?;
    }
    Ok(())
}

/// Writes the names that have no address, if there are any, after a bar.
fn push_missing(names: &[Name], out: &mut Vec<u8>) -> Result<(), NoMemory>
    ensures { OnOk result (out.new.items ≡ out.old.items ++ missing_text names.now) }
{
    if names.is_empty() {
        return Ok(());
    }
    out.extend_from_slice(b" |")?;
    push_names(names, out)
}

/// Writes `ZONE SOURCE ADDR..`, and the names that have no address.
#[tactic(auto, unfolding(crate::specs::Text::servers_text))]
fn push_servers(servers: &Servers, out: &mut Vec<u8>) -> Result<(), NoMemory>
    ensures { OnOk result (out.new.items ≡ out.old.items ++ servers_text servers.now) }
{
    servers.zone.push_text(out)?;
    out.push(b' ')?;
    out.extend_from_slice(source_word(servers.source))?;
    push_addrs(servers.addrs.as_slice(), out)?;
    push_missing(servers.missing.as_slice(), out)
}

/// The line of the servers of a name.
pub(crate) fn servers_line(alloc: Global, servers: &Servers) -> Result<Vec<u8>, NoMemory>
    ensures { IfOk result (λ text. text.items ≡ with_end (codes "servers " ++ servers_text servers.now)) }
{
    let mut out = Vec::new(alloc);
    out.extend_from_slice(b"servers ")?;
    push_servers(servers, &mut out)?;
    out.push(b'\n')?;
    Ok(out)
}
