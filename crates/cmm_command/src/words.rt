//! Commands from words.

ghost use Rattle.std.specs.Prelude.{◌≡◌, map, string_bytes};
ghost use Rattle.clap.specs.Words.{found_of, rows_of};
ghost use Rattle.cmm_command.specs.declared.first_word.FirstWord.TheVariants as first;
ghost use Rattle.cmm_command.specs.FirstWords.{first_word_in};
ghost use Rattle.cmm_command.specs.Meaning.{build_of, exec_of, generate_of, meaning_by, meaning_of, plain, run_of, segments_of};
ghost use Rattle.cmm_command.specs.Reading.{Gives};

use crate::command::Command;
use crate::fault::CommandFault;
use crate::first_word::FirstWord;
use crate::options::{self, CLIENT, FILE, IMAGE, SAVE, SNAPSHOT, UNIT};
use crate::sorted;
use clap::ArgMatches;
use std::alloc::Global;

/// What words ask for. They are those that a user typed after the program's name.
#[tactic(auto, unfolding(crate::specs::Meaning::meaning_of))]
pub fn command_of<'a>(alloc: Global, words: &'a [String]) -> Result<Command<'a>, CommandFault>
    ensures { Gives plain (meaning_of (map string_bytes words.entry.now)) result }
{
    match first_word(words) {
        Some(first) => asked(alloc, first, words),
        None => Err(CommandFault::Usage),
    }
}

/// What the first of the words says.
fn first_word(words: &[String]) -> Option<FirstWord>
    ensures { result ≡ first_word_in (map string_bytes words.now) }
{
    match words.first() {
        Some(word) => FirstWord::of(word.as_str()),
        None => None,
    }
}

/// What words ask for whose first is known.
fn asked<'a>(
    alloc: Global,
    first: FirstWord,
    words: &'a [String],
) -> Result<Command<'a>, CommandFault>
    ensures { Gives plain (meaning_by first (map string_bytes words.entry.now)) result }
{
    match first {
        FirstWord::Build => build(alloc, words),
        FirstWord::Run => run(alloc, words),
        FirstWord::Exec => exec(alloc, words),
        FirstWord::Walk => walk(alloc, words),
        FirstWord::Generate => generate(alloc, words),
        FirstWord::Elf => elf(alloc, words),
        FirstWord::Migrate => migrate(alloc, words),
        FirstWord::Segments => segments(alloc, words),
    }
}

/// What words that begin with `build` ask for.
#[tactic(auto, unfolding(crate::specs::Meaning::meaning_by))]
fn build<'a>(alloc: Global, words: &'a [String]) -> Result<Command<'a>, CommandFault>
    ensures { Gives plain (meaning_by first.Build (map string_bytes words.entry.now)) result }
{
    let matches = sorted::sorted(options::build(alloc)?, words)?;
    build_in(alloc, &matches)
}

/// What words that `build` takes ask for.
fn build_in<'a>(alloc: Global, matches: &ArgMatches<'a>) -> Result<Command<'a>, CommandFault>
    ensures { Gives plain (build_of (rows_of (found_of matches.now))) result }
{
    let units = sorted::files(alloc, matches, UNIT)?;
    let image = sorted::file(matches, IMAGE)?;
    Ok(Command::Build { units, image })
}

/// What words that begin with `run` ask for.
#[tactic(auto, unfolding(crate::specs::Meaning::meaning_by))]
fn run<'a>(alloc: Global, words: &'a [String]) -> Result<Command<'a>, CommandFault>
    ensures { Gives plain (meaning_by first.Run (map string_bytes words.entry.now)) result }
{
    let matches = sorted::sorted(options::run(alloc)?, words)?;
    run_in(&matches)
}

/// What words that `run` takes ask for.
fn run_in<'a>(matches: &ArgMatches<'a>) -> Result<Command<'a>, CommandFault>
    ensures { Gives plain (run_of (rows_of (found_of matches.now))) result }
{
    let image = sorted::file(matches, IMAGE)?;
    let client = sorted::file_if_given(matches, CLIENT)?;
    let limits = sorted::limits(matches)?;
    let save = sorted::file_if_given(matches, SAVE)?;
    Ok(Command::Run {
        image,
        client,
        limits,
        save,
    })
}

/// What words that begin with `exec` ask for.
#[tactic(auto, unfolding(crate::specs::Meaning::meaning_by))]
fn exec<'a>(alloc: Global, words: &'a [String]) -> Result<Command<'a>, CommandFault>
    ensures { Gives plain (meaning_by first.Exec (map string_bytes words.entry.now)) result }
{
    let matches = sorted::sorted(options::exec(alloc)?, words)?;
    exec_in(alloc, &matches)
}

/// What words that `exec` takes ask for.
fn exec_in<'a>(alloc: Global, matches: &ArgMatches<'a>) -> Result<Command<'a>, CommandFault>
    ensures { Gives plain (exec_of (rows_of (found_of matches.now))) result }
{
    let units = sorted::files(alloc, matches, UNIT)?;
    let client = sorted::file_if_given(matches, CLIENT)?;
    let limits = sorted::limits(matches)?;
    Ok(Command::Exec {
        units,
        client,
        limits,
    })
}

/// What words that begin with `walk` ask for.
#[tactic(auto, unfolding(crate::specs::Meaning::meaning_by))]
fn walk<'a>(alloc: Global, words: &'a [String]) -> Result<Command<'a>, CommandFault>
    ensures { Gives plain (meaning_by first.Walk (map string_bytes words.entry.now)) result }
{
    let (image, snapshot) = sorted::two_files(options::walk(alloc)?, SNAPSHOT, words)?;
    Ok(Command::Walk { image, snapshot })
}

/// What words that begin with `gen` ask for.
#[tactic(auto, unfolding(crate::specs::Meaning::meaning_by))]
fn generate<'a>(alloc: Global, words: &'a [String]) -> Result<Command<'a>, CommandFault>
    ensures { Gives plain (meaning_by first.Generate (map string_bytes words.entry.now)) result }
{
    let matches = sorted::sorted(options::generate(alloc)?, words)?;
    generate_in(&matches)
}

/// What words that `gen` takes ask for.
fn generate_in<'a>(matches: &ArgMatches<'a>) -> Result<Command<'a>, CommandFault>
    ensures { Gives plain (generate_of (rows_of (found_of matches.now))) result }
{
    let number = sorted::program_number(matches)?;
    Ok(Command::Generate { number })
}

/// What words that begin with `elf` ask for.
#[tactic(auto, unfolding(crate::specs::Meaning::meaning_by))]
fn elf<'a>(alloc: Global, words: &'a [String]) -> Result<Command<'a>, CommandFault>
    ensures { Gives plain (meaning_by first.Elf (map string_bytes words.entry.now)) result }
{
    let (image, file) = sorted::two_files(options::elf(alloc)?, FILE, words)?;
    Ok(Command::Elf { image, file })
}

/// What words that begin with `migrate` ask for.
#[tactic(auto, unfolding(crate::specs::Meaning::meaning_by))]
fn migrate<'a>(alloc: Global, words: &'a [String]) -> Result<Command<'a>, CommandFault>
    ensures { Gives plain (meaning_by first.Migrate (map string_bytes words.entry.now)) result }
{
    let (image, file) = sorted::two_files(options::migrate(alloc)?, FILE, words)?;
    Ok(Command::Migrate { image, file })
}

/// What words that begin with `segments` ask for.
#[tactic(auto, unfolding(crate::specs::Meaning::meaning_by))]
fn segments<'a>(alloc: Global, words: &'a [String]) -> Result<Command<'a>, CommandFault>
    ensures { Gives plain (meaning_by first.Segments (map string_bytes words.entry.now)) result }
{
    let matches = sorted::sorted(options::segments(alloc)?, words)?;
    segments_in(&matches)
}

/// What words that `segments` takes ask for.
fn segments_in<'a>(matches: &ArgMatches<'a>) -> Result<Command<'a>, CommandFault>
    ensures { Gives plain (segments_of (rows_of (found_of matches.now))) result }
{
    let file = sorted::file(matches, FILE)?;
    Ok(Command::Segments { file })
}
