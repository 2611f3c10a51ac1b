//! The script of a run's client.

ghost use Rattle.std.specs.Prelude.{◌≡◌, ◌≤◌, length, Some, IfOk, IfErr, IfSome};
ghost use Rattle.std.specs.Option.{option_map};
ghost use Rattle.cmm_outside.specs.declared.storage.TheConstants.{NAME_LIMIT};
ghost use Rattle.cmm_script.specs.Limits.{HasFewValues};
ghost use Rattle.cmm_work.specs.Reads.{script_in};
ghost use Rattle.cmm_work.specs.Script.{named_file};
ghost use Rattle.cmm_work.specs.Ending.{IsRefusedScript};
ghost use Rattle.cmm_work.specs.Reading.{IsClientRead, IsScriptRead, ReadsEach, ReadsOrFails};

use crate::ending::Ending;
use crate::reading::{FileBytes, ReadFault, bytes_in};
use cmm_outside::Files;
use cmm_rules::Rule;
use cmm_script::{SCRIPT_LIMIT, Script, ScriptFault, parse_script};
use std::alloc::Global;

/// Reads the file of the client, if words name one, up to one byte past what a script may have.
pub fn client_in<'a, F: Files>(
    alloc: Global,
    files: &mut F,
    client: Option<&'a str>,
) -> Result<Option<FileBytes>, ReadFault<'a>>
    requires { IfSome client (λ name. length name.now ≤ NAME_LIMIT) }
    ensures ok { IfOk result (IsClientRead (F.contents files.old) (option_map (λ name. name.now) client.entry)) }
    ensures same { F.contents files.new ≡ F.contents files.old }
    ensures reads { ReadsEach (script_in (option_map (λ name. name.now) client.entry)) (F.reads files.old) (F.reads files.new) result }
    ensures fault { ReadsOrFails (named_file (option_map (λ name. name.now) client.entry))
        (F.faults files.old) (F.faults files.new) (F.last_failed files.old) (F.last_failed files.new) result }
{
    let Some(name) = client else {
        return Ok(None);
    };
    let read = bytes_in(alloc, files, name, SCRIPT_LIMIT as u64)?;
    Ok(Some(read))
}

/// The script of a client's file as it was read, or that without a block where there is none. The error is what the call comes to.
pub fn script_of(alloc: Global, read: &Option<FileBytes>) -> Result<Script, Ending<'static>>
    ensures ok { IfOk result (IsScriptRead read.now) }
    ensures few { IfOk result HasFewValues }
    ensures err { IfErr result (IsRefusedScript read.now) }
{
    match read {
        None => Ok(Script::empty(alloc)),
        Some(FileBytes::TooLong) => Err(Ending::BadScript {
            rule: Rule::ScriptTooLong,
            line: 1,
        }),
        Some(FileBytes::Whole(bytes)) => match parse_script(alloc, bytes) {
            Ok(script) => Ok(script),
            Err(ScriptFault::At { rule, line }) => Err(Ending::BadScript { rule, line }),
            Err(ScriptFault::Memory) => Err(Ending::OutOfMemory),
        },
    }
}
