//! Laws of two command lines, and the numbers of the options.

ghost use Rattle.std.specs.Prelude.{◌≡◌, ◌∷◌, [], codes};
ghost use Rattle.history.specs.declared.event.Settings.{Settings};
ghost use Rattle.resolver_args.specs.Mode.{default_settings};
ghost use Rattle.resolver_args.specs.Says.{Says, SetsJournalAndHint};
ghost use Rattle.resolver_args.specs.declared.mode.Mode.TheVariants.{Script};
ghost use Rattle.resolver_args.specs.declared.mode.TheConstants.{MOST_BACKLOG, MOST_WORKERS};
ghost use Rattle.resolver_args.specs.declared.options.TheConstants.{DEFAULT_BACKLOG, DEFAULT_CELLS, DEFAULT_JOURNAL, DEFAULT_RECORD};
ghost use Rattle.resolver_args.specs.declared.options.TheConstants.{DEFAULT_SECONDS, DEFAULT_SERVER_PORT, DEFAULT_WORKERS, MOST_SECONDS};

/// `resolver script` gives each setting its default, and no hints.
pub fn defaults_law()
    ensures { (settings : Settings) → Says (codes "resolver" ∷ codes "script" ∷ []) (Script settings) → settings ≡ default_settings }
{}

/// `resolver script --journal 7 192.0.2.1` sets the journal to 7, and gives one hint.
pub fn given_law()
    ensures { SetsJournalAndHint (codes "7") 7 (codes "192.0.2.1") }
{}

/// The defaults of the options, and the greatest numbers that no crate below has.
pub fn limits_law()
    ensures journal { DEFAULT_JOURNAL ≡ 64 }
    ensures cells { DEFAULT_CELLS ≡ 100000 }
    ensures record { DEFAULT_RECORD ≡ 10000 }
    ensures port { DEFAULT_SERVER_PORT ≡ 53 }
    ensures workers { (DEFAULT_WORKERS ≡ 1) × (MOST_WORKERS ≡ 16) }
    ensures backlog { (DEFAULT_BACKLOG ≡ 256) × (MOST_BACKLOG ≡ 65535) }
    ensures seconds { (DEFAULT_SECONDS ≡ 10) × (MOST_SECONDS ≡ 86400) }
{}
