//! The table of commands: the word of each, the form of the words after it, and the channels that have it.

ghost use Rattle.std.specs.Prelude.{map, filter, flat_map, ◌≡◌, ◌++◌, option_map, string_bytes, IfOk, OnOk};
ghost use Rattle.std.specs.Str.{bytes_eq};
ghost use Rattle.command_text.specs.Words.{row_now, commands, by_word, is_allowed, verb_in, form_text, usage_text, help_text};

use std::alloc::{AllocError, Global};

/// A command, by the first word of its line.
#[derive(Clone, Copy)]
pub(crate) enum Verb {
    At,
    Admit,
    NoData,
    NoName,
    Forget,
    Oldest,
    Look,
    Servers,
    Sweep,
    Flush,
    FlushType,
    FlushZone,
    LocalZone,
    LocalZoneRemove,
    LocalData,
    LocalDataRemove,
    StubAdd,
    StubRemove,
    ListLocalZones,
    ListLocalData,
    ListStubs,
    ListCommands,
    ListBuried,
    Undo,
    Redo,
    LookUndo,
    LookRedo,
    LookWithout,
    WhatUndo,
    Stop,
    Status,
    Stats,
}

/// The place that lines come from.
#[derive(Clone, Copy, PartialEq, Eq)]
pub enum Channel {
    /// A script.
    Script,
    /// The control socket of a service.
    Control,
}

/// How a command is written, and which channels have it.
struct Usage {
    verb: Verb,
    /// The first word of its line.
    word: &'static str,
    /// The form of the words after it.
    form: &'static str,
    in_script: bool,
    in_control: bool,
}

static COMMANDS: [Usage; 32] = [
    Usage {
        verb: Verb::At,
        word: "at",
        form: "N",
        in_script: true,
        in_control: false,
    },
    Usage {
        verb: Verb::Admit,
        word: "admit",
        form: "RANK NAME TTL TYPE DATA [| DATA]..",
        in_script: true,
        in_control: false,
    },
    Usage {
        verb: Verb::NoData,
        word: "nodata",
        form: "NAME TTL TYPE OWNER SOA-DATA",
        in_script: true,
        in_control: false,
    },
    Usage {
        verb: Verb::NoName,
        word: "noname",
        form: "NAME TTL OWNER SOA-DATA",
        in_script: true,
        in_control: false,
    },
    Usage {
        verb: Verb::Forget,
        word: "forget",
        form: "NAME",
        in_script: true,
        in_control: false,
    },
    Usage {
        verb: Verb::Oldest,
        word: "oldest",
        form: "",
        in_script: true,
        in_control: false,
    },
    Usage {
        verb: Verb::Look,
        word: "look",
        form: "NAME TYPE",
        in_script: true,
        in_control: true,
    },
    Usage {
        verb: Verb::Servers,
        word: "servers",
        form: "NAME",
        in_script: true,
        in_control: true,
    },
    Usage {
        verb: Verb::Sweep,
        word: "sweep",
        form: "",
        in_script: true,
        in_control: true,
    },
    Usage {
        verb: Verb::Flush,
        word: "flush",
        form: "NAME",
        in_script: true,
        in_control: true,
    },
    Usage {
        verb: Verb::FlushType,
        word: "flush_type",
        form: "NAME TYPE",
        in_script: true,
        in_control: true,
    },
    Usage {
        verb: Verb::FlushZone,
        word: "flush_zone",
        form: "NAME",
        in_script: true,
        in_control: true,
    },
    Usage {
        verb: Verb::LocalZone,
        word: "local_zone",
        form: "NAME TYPE",
        in_script: true,
        in_control: true,
    },
    Usage {
        verb: Verb::LocalZoneRemove,
        word: "local_zone_remove",
        form: "NAME",
        in_script: true,
        in_control: true,
    },
    Usage {
        verb: Verb::LocalData,
        word: "local_data",
        form: "RECORD",
        in_script: true,
        in_control: true,
    },
    Usage {
        verb: Verb::LocalDataRemove,
        word: "local_data_remove",
        form: "NAME",
        in_script: true,
        in_control: true,
    },
    Usage {
        verb: Verb::StubAdd,
        word: "stub_add",
        form: "NAME ADDR..",
        in_script: true,
        in_control: true,
    },
    Usage {
        verb: Verb::StubRemove,
        word: "stub_remove",
        form: "NAME",
        in_script: true,
        in_control: true,
    },
    Usage {
        verb: Verb::ListLocalZones,
        word: "list_local_zones",
        form: "",
        in_script: true,
        in_control: true,
    },
    Usage {
        verb: Verb::ListLocalData,
        word: "list_local_data",
        form: "",
        in_script: true,
        in_control: true,
    },
    Usage {
        verb: Verb::ListStubs,
        word: "list_stubs",
        form: "",
        in_script: true,
        in_control: true,
    },
    Usage {
        verb: Verb::ListCommands,
        word: "list_commands",
        form: "",
        in_script: true,
        in_control: true,
    },
    Usage {
        verb: Verb::ListBuried,
        word: "list_buried",
        form: "",
        in_script: true,
        in_control: true,
    },
    Usage {
        verb: Verb::Undo,
        word: "undo",
        form: "[N]",
        in_script: true,
        in_control: true,
    },
    Usage {
        verb: Verb::Redo,
        word: "redo",
        form: "[N]",
        in_script: true,
        in_control: true,
    },
    Usage {
        verb: Verb::LookUndo,
        word: "look_undo",
        form: "NAME TYPE",
        in_script: true,
        in_control: true,
    },
    Usage {
        verb: Verb::LookRedo,
        word: "look_redo",
        form: "NAME TYPE",
        in_script: true,
        in_control: true,
    },
    Usage {
        verb: Verb::LookWithout,
        word: "look_without",
        form: "N NAME TYPE",
        in_script: true,
        in_control: true,
    },
    Usage {
        verb: Verb::WhatUndo,
        word: "what_undo",
        form: "",
        in_script: true,
        in_control: true,
    },
    Usage {
        verb: Verb::Stop,
        word: "stop",
        form: "",
        in_script: false,
        in_control: true,
    },
    Usage {
        verb: Verb::Status,
        word: "status",
        form: "",
        in_script: false,
        in_control: true,
    },
    Usage {
        verb: Verb::Stats,
        word: "stats",
        form: "",
        in_script: false,
        in_control: true,
    },
];

// A function of its own, so that no goal spells the table out.
fn table() -> &'static [Usage]
    ensures { map row_now result.now ≡ commands }
{
    &COMMANDS
}

impl Usage {
    fn has_word(&self, word: &[u8]) -> bool
        ensures { result ≡ bytes_eq self.now.word.now word.now }
    {
        self.word.as_bytes() == word
    }

    fn is_allowed(&self, channel: Channel) -> bool
        ensures { result ≡ is_allowed channel (row_now self.now) }
    {
        match channel {
            Channel::Script => self.in_script,
            Channel::Control => self.in_control,
        }
    }
}

/// The row of a word.
#[tactic(auto, unfolding(crate::specs::Words::by_word))]
fn by_word(word: &[u8]) -> Option<&'static Usage>
    ensures { option_map (λ usage. row_now usage.now) result ≡ by_word word.now commands }
{
    for usage in table() {
        if usage.has_word(word) {
            return Some(usage);
        }
    }
    None
}

/// The command of a word, if the channel has it.
pub(crate) fn verb_in(channel: Channel, word: &[u8]) -> Option<Verb>
    ensures { result ≡ verb_in channel word.now }
{
    let usage = by_word(word)?;
    if usage.is_allowed(channel) {
        Some(usage.verb)
    } else {
        None
    }
}

fn push_form(form: &str, out: &mut String) -> Result<(), AllocError>
    ensures { OnOk result (string_bytes out.new ≡ string_bytes out.old ++ form_text form.now) }
{
    if form.is_empty() {
        return Ok(());
    }
    out.push_str(" ")?;
    out.push_str(form)
}

fn push_usage(usage: &Usage, out: &mut String) -> Result<(), AllocError>
    ensures { OnOk result (string_bytes out.new ≡ string_bytes out.old ++ usage_text (row_now usage.now)) }
{
    out.push_str("  ")?;
    out.push_str(usage.word)?;
    push_form(usage.form, out)?;
    out.push_str("\n")
}

/// The help on the commands of a channel: a line for each, with its form.
pub fn help_text(alloc: Global, channel: Channel) -> Result<String, AllocError>
    ensures { IfOk result (λ text. string_bytes text ≡ help_text channel) }
{
    let mut out = String::new(alloc);
    for usage in table() {
        if usage.is_allowed(channel) {
            push_usage(usage, &mut out)?;
        }
    }
    Ok(out)
}
