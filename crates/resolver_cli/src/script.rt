//! The mode `script`: it obeys the lines of standard input over a book of its own.

ghost use Rattle.history.specs.Event.{AreSettings};

use command_text::run_script;
use history::Settings;
use operators::CliFault;
use store::ShelfBook;
use streams::{CountedReader, CountedWriter, ScriptFault};

/// Obeys each line of standard input, and writes the replies to standard output.
pub(crate) fn obey_input(rt: &HostRuntime, settings: Settings) -> Result<(), CliFault>
    requires { AreSettings settings }
{
    // The settings are in range, so only memory can be short.
    let Ok(mut book) = ShelfBook::new(rt.alloc(), settings) else {
        return Err(CliFault::no_memory());
    };
    let mut reader = CountedReader::new(rt.stdin());
    let mut writer = CountedWriter::new(rt.stdout());
    match run_script(rt.alloc(), &mut book, &mut reader, &mut writer) {
        Ok(()) => Ok(()),
        Err(ScriptFault::Read) => Err(CliFault::failed_read()),
        Err(ScriptFault::Write) => Err(CliFault::failed_write()),
    }
}
