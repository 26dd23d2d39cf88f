//! What the lines of a script made so far.
ghost use Rattle.std.specs.Prelude.{ℕ, ◌≡◌, ◌<◌, ◌++◌, ◌∷◌, [], List, length, Some, OnOk, refl};
ghost use Rattle.fault_script.specs.LineItems.{ScriptLineShows};
ghost use Rattle.fault_script.specs.LineMeanings.{command_limit};
ghost use Rattle.fault_script.specs.Lines.{is_long};
ghost use Rattle.fault_script.specs.Scripts.{IsScript, SaidLine, opened_after, opened_of, script_rules};
ghost use Rattle.script_runs.specs.declared.command.Command.{Command};
ghost use Rattle.fault_script.specs.declared.fault.LineFault.TheVariants.{TooLong};

use crate::fault::Stop;
use crate::lines::{LineJudgement, judge_lines};
use crate::parse_line::{ConfigSoFar, Last, Said, says_after};
use crate::shown::Shown;
use crate::{LineFault, ScriptError};
use line_files::{Contents, Opens};
use script_runs::{Command, NumberedCommand, Script};
use std::alloc::Global;
use tag::Memory;

/// The configuration so far, the commands after it, and how many lines were commands, those of the
/// configuration among them.
#[derive(Drop)]
pub struct Draft {
    pub opened: Option<ConfigSoFar>,
    pub commands: Vec<NumberedCommand>,
    pub count: usize,
}

/// The configuration after a command.
fn after_command(before: Option<ConfigSoFar>) -> Option<ConfigSoFar>
    ensures { (command : Command) → result ≡ opened_after before (Said.Runs command) }
{
    match before {
        Some(opened) => Some(ConfigSoFar {
            config: opened.config,
            last: Last::Other,
        }),
        None => None,
    }
}

impl Draft {
    ghost use Rattle.fault_script.specs.Drafts.{IsDraft};

    /// Sets the configuration, as a line of whatever number says.
    fn open(&mut self, opened: ConfigSoFar)
        requires { self.old.count < command_limit }
        ensures { (saids : List SaidLine) (line : ℕ) → IsDraft saids self.old
            → IsDraft (saids ++ record { line = line; said = Said.Opens opened } ∷ []) self.new }
    {
        self.opened = Some(opened);
        self.count += 1;
    }

    /// Adds the command of the line of that number.
    fn run(&mut self, line: u64, command: Command) -> Result<(), Memory>
        requires { self.old.count < command_limit }
        ensures { OnOk result ((saids : List SaidLine) → IsDraft saids self.old
            → IsDraft (saids ++ record { line = line; said = Said.Runs command } ∷ []) self.new) }
    {
        self.commands.push(NumberedCommand { line, command })?;
        self.opened = after_command(self.opened);
        self.count += 1;
        Ok(())
    }
}

/// A script's lines are judged by themselves alone.
impl Contents for Draft {
    ghost use Rattle.fault_script.specs.Drafts.{Drafts};

    type Fault = LineFault;

    type Item = Shown;

    type Context = ();

    type Tools = ();

    type Whole = Script;

    ghost rules = { script_rules };

    ghost Reads = { Drafts };

    ghost context = { λ draft. Some tt };

    ghost Shows = { λ under. ScriptLineShows };

    ghost ReadsWhole = { IsScript };

    ghost too_long = { TooLong };

    fn tools() {}

    fn context(&self) -> Option<()> {
        Some(())
    }

    fn too_long() -> LineFault {
        LineFault::TooLong
    }

    fn begin(&mut self, _alloc: Global, _line: &[u8]) -> Result<(), Stop> {
        Ok(())
    }

    fn judge_chunk(
        alloc: Global,
        _under: (),
        _tools: &(),
        chunk: &[u8],
    ) -> Result<Vec<LineJudgement>, Memory> {
        judge_lines(alloc, chunk)
    }

    fn follow(&mut self, line: u64, shown: Shown) -> Result<(), Stop> {
        match says_after(self.opened, self.count, shown)? {
            Some(Said::Opens(opened)) => {
                self.open(opened);
                Ok(())
            }
            Some(Said::Runs(command)) => {
                self.run(line, command)?;
                Ok(())
            }
            None => Ok(()),
        }
    }

    fn whole(self) -> Result<Script, ScriptError> {
        let Draft {
            opened,
            commands,
            ..
        } = self;
        match opened {
            Some(opened) => Ok(Script {
                config: opened.config,
                commands,
            }),
            None => Err(ScriptError::at(1, Stop::Fault(LineFault::NoReplicas))),
        }
    }

    ghost sound = { λ lines draft drafts. (drafts.saids, drafts.read) };

    ghost faulty = { λ lines draft under line fault drafts is shows. record {
      saids = drafts.saids;
      read = drafts.read;
      counted = refl;
      faulty = shows (opened_of drafts.saids) (length drafts.saids);
    } };

    ghost long = { λ lines draft line drafts much. record {
      saids = drafts.saids;
      read = drafts.read;
      counted = refl;
      faulty = is_long much;
    } };
}

impl Opens for Draft {
    fn opening(alloc: Global) -> Draft {
        Draft {
            opened: None,
            commands: Vec::new(alloc),
            count: 0,
        }
    }
}
