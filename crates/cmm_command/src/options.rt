//! What each command takes after its first word, as a command of clap.

ghost use Rattle.std.specs.Prelude.{◌≡◌, false, codes, IfOk};
ghost use Rattle.clap.specs.Words.{app_of, new_app, rule_of, with_rule};
ghost use Rattle.cmm_command.specs.Options as options;

use clap::{Arg, Command};
use std::alloc::{AllocError, Global};

/// The files of the units, one or more.
pub const UNIT: &str = "unit";

/// The file of the image.
pub const IMAGE: &str = "image";

/// The ELF file, or that of an image that is written.
pub const FILE: &str = "file";

/// The file to which a program was saved.
pub const SNAPSHOT: &str = "snapshot";

/// The number of a generated program.
pub const NUMBER: &str = "number";

/// The file of the client's script.
pub const CLIENT: &str = "client";

/// The most steps of a run.
pub const STEPS: &str = "steps";

/// The size of the stack.
pub const STACK: &str = "stack";

/// The file to which a stopped program is saved.
pub const SAVE: &str = "save";

/// What `build` takes.
pub fn build<'a>(alloc: Global) -> Result<Command<'a>, AllocError>
    ensures { IfOk result (λ c. app_of c ≡ options.build_app) }
{
    let command = with_units(alloc, helpless(alloc, "build"))?;
    with_output(alloc, command, IMAGE)
}

/// What `run` takes.
pub fn run<'a>(alloc: Global) -> Result<Command<'a>, AllocError>
    ensures { IfOk result (λ c. app_of c ≡ options.run_app) }
{
    let command = with_operand(alloc, helpless(alloc, "run"), IMAGE)?;
    let command = with_run_options(alloc, command)?;
    with_option(alloc, command, SAVE)
}

/// What `exec` takes.
pub fn exec<'a>(alloc: Global) -> Result<Command<'a>, AllocError>
    ensures { IfOk result (λ c. app_of c ≡ options.exec_app) }
{
    let command = with_units(alloc, helpless(alloc, "exec"))?;
    with_run_options(alloc, command)
}

/// What `walk` takes.
pub fn walk<'a>(alloc: Global) -> Result<Command<'a>, AllocError>
    ensures { IfOk result (λ c. app_of c ≡ options.walk_app) }
{
    let command = with_operand(alloc, helpless(alloc, "walk"), IMAGE)?;
    with_operand(alloc, command, SNAPSHOT)
}

/// What `gen` takes.
pub fn generate<'a>(alloc: Global) -> Result<Command<'a>, AllocError>
    ensures { IfOk result (λ c. app_of c ≡ options.generate_app) }
{
    with_operand(alloc, helpless(alloc, "gen"), NUMBER)
}

/// What `elf` takes.
pub fn elf<'a>(alloc: Global) -> Result<Command<'a>, AllocError>
    ensures { IfOk result (λ c. app_of c ≡ options.elf_app) }
{
    let command = with_operand(alloc, helpless(alloc, "elf"), IMAGE)?;
    with_output(alloc, command, FILE)
}

/// What `migrate` takes.
pub fn migrate<'a>(alloc: Global) -> Result<Command<'a>, AllocError>
    ensures { IfOk result (λ c. app_of c ≡ options.migrate_app) }
{
    let command = with_operand(alloc, helpless(alloc, "migrate"), IMAGE)?;
    with_output(alloc, command, FILE)
}

/// What `segments` takes.
pub fn segments<'a>(alloc: Global) -> Result<Command<'a>, AllocError>
    ensures { IfOk result (λ c. app_of c ≡ options.segments_app) }
{
    with_operand(alloc, helpless(alloc, "segments"), FILE)
}

/// Adds the options of a run: its client, its steps and its stack.
fn with_run_options<'a>(alloc: Global, command: Command<'a>) -> Result<Command<'a>, AllocError>
    ensures { IfOk result (λ c. app_of c ≡ options.with_run_options (app_of command.entry)) }
{
    let command = with_option(alloc, command, CLIENT)?;
    let command = with_option(alloc, command, STEPS)?;
    with_option(alloc, command, STACK)
}

/// Adds the files of the units.
fn with_units<'a>(alloc: Global, command: Command<'a>) -> Result<Command<'a>, AllocError>
    ensures { IfOk result (λ c. app_of c ≡ with_rule (app_of command.entry) options.units) }
{
    command.arg(units(alloc))
}

/// Adds the file of this name that is written, after `-o`.
fn with_output<'a>(
    alloc: Global,
    command: Command<'a>,
    name: &'a str,
) -> Result<Command<'a>, AllocError>
    ensures { IfOk result (λ c. app_of c ≡ with_rule (app_of command.entry) (options.output name.entry.now)) }
{
    command.arg(output(alloc, name))
}

/// Adds an option of this name, which takes one value.
fn with_option<'a>(
    alloc: Global,
    command: Command<'a>,
    name: &'a str,
) -> Result<Command<'a>, AllocError>
    ensures { IfOk result (λ c. app_of c ≡ with_rule (app_of command.entry) (options.option name.entry.now)) }
{
    command.arg(option(alloc, name))
}

/// Adds a word that has to be there.
fn with_operand<'a>(
    alloc: Global,
    command: Command<'a>,
    name: &'a str,
) -> Result<Command<'a>, AllocError>
    ensures { IfOk result (λ c. app_of c ≡ with_rule (app_of command.entry) (options.operand name.entry.now)) }
{
    command.arg(operand(alloc, name))
}

/// A command that takes nothing yet, and has no flag for help.
fn helpless<'a>(alloc: Global, name: &'a str) -> Command<'a>
    ensures { app_of result ≡ options.helpless_app name.entry.now }
{
    Command::new(alloc, name).disable_help_flag(true)
}

/// The files of the units.
fn units<'a>(alloc: Global) -> Arg<'a>
    ensures rule { rule_of result ≡ options.units }
    ensures own { result.global ≡ false }
{
    operand(alloc, UNIT).num_args(1..)
}

/// The file of this name that is written, after `-o`.
fn output<'a>(alloc: Global, name: &'a str) -> Arg<'a>
    ensures rule { rule_of result ≡ options.output name.entry.now }
    ensures own { result.global ≡ false }
{
    operand(alloc, name).short('o')
}

/// An option of this name, which takes one value.
fn option<'a>(alloc: Global, name: &'a str) -> Arg<'a>
    ensures rule { rule_of result ≡ options.option name.entry.now }
    ensures own { result.global ≡ false }
{
    Arg::new(alloc, name).long(name)
}

/// A word that has to be there.
fn operand<'a>(alloc: Global, name: &'a str) -> Arg<'a>
    ensures rule { rule_of result ≡ options.operand name.entry.now }
    ensures own { result.global ≡ false }
{
    Arg::new(alloc, name).required(true)
}
