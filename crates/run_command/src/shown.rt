//! The text that a run writes: the history of one hall, or the histories of all.
ghost use Rattle.std.specs.Prelude.{◌≡◌, IfOk};
ghost use Rattle.run_command.specs.declared.shown.NoText.{NoText};
ghost use Rattle.command_line.specs.declared.asked.Shown.{Shown};
ghost use Rattle.run_command.specs.Shown.{IsShownText};

use command_line::Shown;
use counted_devices::Counting;
use file_format::{history_text, write_histories};
use recorder::Histories;
use std::alloc::Global;
use tag::Memory;

/// Why there is no text.
#[derive(Clone, Copy, Debug, PartialEq, Eq)]
pub(crate) enum NoText {
    /// An allocation was refused.
    Memory,
    /// The records aren't those of a row of halls, or not of halls that were asked for. A store
    /// leaves none such.
    Apart,
}

impl From<Memory> for NoText {
    ghost from_gives = { λ _ e. e ≡ NoText.Memory };

    fn from(_: Memory) -> NoText {
        NoText::Memory
    }
}

/// The text of what is shown of the histories.
pub(crate) fn shown_text(
    alloc: Global,
    histories: &Histories,
    shown: Shown,
) -> Result<Vec<u8>, NoText>
    ensures { IfOk result (λ text. IsShownText histories.now shown text.items) }
{
    match shown {
        Shown::Hall(number) => match histories.halls().get(usize::from(number)) {
            Some(history) => Ok(history_text(alloc, history)?),
            None => Err(NoText::Apart),
        },
        Shown::All => all_text(alloc, histories),
    }
}

/// The text of all histories, by hall.
fn all_text(alloc: Global, histories: &Histories) -> Result<Vec<u8>, NoText>
    ensures { IfOk result (λ text. IsShownText histories.now Shown.All text.items) }
{
    let mut writer = Counting::new(Vec::new(alloc));
    match write_histories(alloc, histories, &mut writer) {
        Ok(()) => Ok(writer.into_inner()),
        // A text fails only where its allocation is refused.
        Err(_) => Err(NoText::Memory),
    }
}
