//! The task of a command line.

ghost use Rattle.cmm_command.specs.Meaning.{plain};
ghost use Rattle.cmm_top.specs.Words.{task_in as task_meant};
ghost use Rattle.cmm_top.specs.inside.Tasks.{IsAsked};

use cmm_command::{Command, RunLimits};
use cmm_items::Items;

/// What words ask for. Files are named by at most 4,095 bytes.
#[derive(Drop)]
pub(crate) enum Task<'a> {
    /// To build the units in files of these names, one at least, and to run their image, with the client's script in a file.
    Execute {
        units: Items<&'a str>,
        client: Option<&'a str>,
        limits: RunLimits,
    },
    /// To run the image in a file, with the client's script in another, and to save a snapshot of it to a third where the client stops it.
    Run {
        image: &'a str,
        client: Option<&'a str>,
        limits: RunLimits,
        save: Option<&'a str>,
    },
    /// To write the walk of the program that the snapshot in a file has, of a run of the image in another.
    Walk {
        image: &'a str,
        snapshot: &'a str,
    },
    /// To build the units in files of these names, one at least, and to write their image to a file.
    Build {
        units: Items<&'a str>,
        image: &'a str,
    },
    /// To build the unit of a number, and to run its image.
    Generate {
        number: u64,
    },
    /// To write the ELF file of the image in a file to another.
    Convert {
        image: &'a str,
        file: &'a str,
    },
    /// To write the image in a file, of version 1, to another in version 2.
    Migrate {
        image: &'a str,
        file: &'a str,
    },
    /// To tell the segments of an ELF file.
    Inspect {
        file: &'a str,
    },
}

/// What a command asks for.
pub(crate) fn task_in<'a>(command: Command<'a>) -> Option<Task<'a>>
    ensures { IsAsked (task_meant (plain command.entry)) result }
{
    match command {
        Command::Exec {
            units,
            client,
            limits,
        } => {
            if units.is_empty() {
                return None;
            }
            Some(Task::Execute {
                units,
                client,
                limits,
            })
        }
        Command::Run {
            image,
            client,
            limits,
            save,
        } => {
            Some(Task::Run {
                image,
                client,
                limits,
                save,
            })
        }
        Command::Build { units, image } => {
            if units.is_empty() {
                return None;
            }
            Some(Task::Build { units, image })
        }
        Command::Generate { number } => Some(Task::Generate { number }),
        Command::Walk { image, snapshot } => Some(Task::Walk { image, snapshot }),
        Command::Elf { image, file } => Some(Task::Convert { image, file }),
        Command::Migrate { image, file } => Some(Task::Migrate { image, file }),
        Command::Segments { file } => Some(Task::Inspect { file }),
    }
}
