//! Which keys are drawn, and how much of each.
ghost use Rattle.std.specs.Prelude.{◌≡◌, is_some, option_map, option_to_list};
ghost use Rattle.judged_keys.specs.Selected.{names_of};
ghost use Rattle.draw_command.specs.Drawings.{IsDefault, center, drawn_by, numbered_call};

use command_line::{By, DrawAsked, defaults};
use judged_keys::{Judged, Names, Selection};
use tag::OpId;

/// Which keys are judged, how many of them have a picture, and how many calls it shows.
#[derive(Clone, Copy, Debug)]
pub struct Drawn<'a> {
    /// What the history is called, if it is.
    pub file: &'a str,
    /// Which keys are judged, by what, and how many of them have a picture, at most.
    pub selection: Selection<'a>,
    /// How many calls of a key are shown, at most, beside those that show why it is refused.
    pub calls: u32,
    /// The number of the call around which calls are shown, if one is given.
    pub around: Option<u64>,
}

/// What the words ask keys to be judged by.
fn judged_by(asked: &DrawAsked<'_>) -> Judged
    ensures { result ≡ drawn_by asked.now.by (is_some asked.now.keys.orders) }
{
    match asked.by {
        By::Values => Judged::Values,
        By::Tags => Selection::of(&asked.keys).judged,
    }
}

impl<'a> Drawn<'a> {
    /// What is drawn where nothing else is asked for: what `abd draw` draws without options.
    pub fn by_default() -> Drawn<'a>
        ensures { IsDefault result }
    {
        Drawn {
            file: "",
            selection: Selection {
                judged: Judged::Tags,
                keys: Names::of(None),
                most: defaults::KEYS,
            },
            calls: u32::from(defaults::CALLS),
            around: None,
        }
    }

    /// What the words ask for.
    pub fn of(asked: &DrawAsked<'a>) -> Drawn<'a>
        ensures file { result.file.now ≡ asked.now.keys.history.now }
        ensures judged { result.selection.judged
            ≡ drawn_by asked.now.by (is_some asked.now.keys.orders) }
        ensures keys { names_of result.selection
            ≡ option_to_list (option_map (λ name. name.now) asked.now.keys.key) }
        ensures most { result.selection.most ≡ asked.now.keys.most }
        ensures calls { result.calls ≡ asked.now.calls }
        ensures around { result.around ≡ asked.now.around }
    {
        let around = match asked.around {
            None => None,
            Some(call) => Some(u64::from(call)),
        };
        Drawn {
            file: asked.keys.history,
            selection: Selection {
                judged: judged_by(asked),
                ..Selection::of(&asked.keys)
            },
            calls: u32::from(asked.calls),
            around,
        }
    }

    /// The call around which calls are shown.
    pub fn center(&self, faulty: &[OpId]) -> Option<OpId>
        ensures { result ≡ center self.now.around faulty.now }
    {
        match self.around {
            Some(number) => numbered_call(number),
            None => faulty.first().copied(),
        }
    }
}

/// The call of that number, if a call can have it.
fn numbered_call(number: u64) -> Option<OpId>
    ensures { result ≡ numbered_call number }
{
    if number < 4_294_967_296 {
        Some(OpId(number as u32))
    } else {
        None
    }
}
