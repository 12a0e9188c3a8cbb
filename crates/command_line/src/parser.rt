//! What `clap` is told of the command line. The only error is that memory ran out.

ghost use Rattle.std.specs.Prelude.{◌≡◌, IfOk, Some, codes, false, true};
ghost use Rattle.clap.specs.Words.{App, new_app, new_rule, rule_of, with_rule, with_subcommand};
ghost use Rattle.command_line.specs.Parser.{IsTold, auditor, draw, flag_rule, flagged, folder_rule, frame, graph, join, judging, logs_rule, migrate, most, number_rule, path_rule, program, reader, reading, records, top, wire, workers_rule, writer};

use crate::help::{self, Reader};
use clap::builder::ValueParser;
use clap::{Arg, ArgAction, Command};
use std::alloc::{AllocError, Global};

/// By what `clap` knows the one thing that a command reads.
pub(crate) const INPUT: &str = "input";

/// By what `clap` knows the second file that `wire` reads.
pub(crate) const OTHER: &str = "other";

/// By what `clap` knows the number of workers.
pub(crate) const WORKERS: &str = "workers";

/// By what `clap` knows the file or folder that is written.
pub(crate) const OUT: &str = "out";

/// By what `clap` knows the number of the first record.
pub(crate) const FROM: &str = "from";

/// By what `clap` knows how many records are wanted.
pub(crate) const COUNT: &str = "count";

/// By what `clap` knows that the later edition is asked for.
pub(crate) const LATER: &str = "later";

/// By what `clap` knows that all calls to a capability are taken to be made through one reference.
pub(crate) const ONE_REFERENCE: &str = "one-reference";

/// By what `clap` knows that a page is asked for.
pub(crate) const HTML: &str = "html";

/// By what `clap` knows that the DOT language is asked for.
pub(crate) const DOT: &str = "dot";

/// A thing that a command reads, which has to be given.
fn input<'a>(alloc: Global, name: &'a str, thing: &'a str, help: &'a str) -> Arg<'a>
    ensures rule { rule_of result
        ≡ record (new_rule name.entry.now) { value_names = 1; required = true } }
    ensures local { result.global ≡ false }
{
    Arg::new(alloc, name)
        .value_name(thing)
        .required(true)
        .help(help)
}

/// An option whose value is one of these numbers.
fn number_option<'a>(
    alloc: Global,
    name: &'a str,
    thing: &'a str,
    numbers: ValueParser<'a>,
    help: &'a str,
) -> Arg<'a>
    ensures rule { rule_of result
        ≡ record (new_rule name.entry.now)
        { long = Some name.entry.now; value_names = 1; parser = Some numbers.entry } }
    ensures local { result.global ≡ false }
{
    Arg::new(alloc, name)
        .long(name)
        .value_name(thing)
        .value_parser(numbers)
        .help(help)
}

/// An option whose value is a number of 64 bits.
fn word_option<'a>(alloc: Global, name: &'a str, thing: &'a str, help: &'a str) -> Arg<'a>
    ensures rule { rule_of result ≡ number_rule name.entry.now 0 most }
    ensures local { result.global ≡ false }
{
    number_option(alloc, name, thing, clap::value_parser!(u64), help)
}

/// The option `--workers N`, a number from 1 to 64, which is 1 where it isn't given.
fn workers_option<'a>(alloc: Global) -> Arg<'a>
    ensures rule { rule_of result ≡ workers_rule }
    ensures local { result.global ≡ false }
{
    let workers = clap::value_parser!(u64).range(1..=64);
    number_option(alloc, WORKERS, "N", workers, help::WORKERS).default_value("1")
}

/// An option that has no value.
fn flag<'a>(alloc: Global, name: &'a str, help: &'a str) -> Arg<'a>
    ensures rule { rule_of result ≡ flag_rule name.entry.now }
    ensures local { result.global ≡ false }
{
    Arg::new(alloc, name)
        .long(name)
        .action(ArgAction::SetTrue)
        .help(help)
}

/// The option `--out THING`, which has to be given.
fn out<'a>(alloc: Global, thing: &'a str, help: &'a str) -> Arg<'a>
    ensures rule { rule_of result ≡ path_rule }
    ensures local { result.global ≡ false }
{
    Arg::new(alloc, OUT)
        .long("out")
        .value_name(thing)
        .required(true)
        .help(help)
}

/// The things that a command reads, of which one at least has to be given.
fn inputs<'a>(alloc: Global, said: Reader<'a>) -> Arg<'a>
    ensures rule { rule_of result ≡ logs_rule }
    ensures local { result.global ≡ false }
{
    input(alloc, INPUT, said.thing, said.help).action(ArgAction::Append)
}

/// The option `--out FOLDER`, which may be left out.
fn folder<'a>(alloc: Global) -> Arg<'a>
    ensures rule { rule_of result ≡ folder_rule }
    ensures local { result.global ≡ false }
{
    Arg::new(alloc, OUT)
        .long("out")
        .value_name("FOLDER")
        .help(help::FOLDER)
}

/// A command without arguments.
fn described<'a>(alloc: Global, said: Reader<'a>) -> Command<'a>
    ensures { IsTold (new_app said.entry.name.now) result }
{
    Command::new(alloc, said.name)
        .about(said.about)
        .long_about(said.long_about)
        .after_help(said.after_help)
}

/// A command with one more argument, where there was memory for it so far.
fn with_argument<'a>(
    command: Result<Command<'a>, AllocError>,
    argument: Arg<'a>,
) -> Result<Command<'a>, AllocError>
    requires { argument.global ≡ false }
    ensures { (app : App) → IfOk command.entry (IsTold app)
        → IfOk result (IsTold (with_rule app (rule_of argument.entry))) }
{
    command?.arg(argument)
}

/// A command with one more subcommand, where there was memory for both so far.
fn with_command<'a>(
    program: Result<Command<'a>, AllocError>,
    command: Result<Command<'a>, AllocError>,
) -> Result<Command<'a>, AllocError>
    ensures { (all one : App) → IfOk program.entry (IsTold all) → IfOk command.entry (IsTold one)
        → IfOk result (IsTold (with_subcommand all one.top)) }
{
    let program = program?;
    program.subcommand(command?)
}

/// A command that reads one thing.
fn reader_command<'a>(alloc: Global, said: Reader<'a>) -> Result<Command<'a>, AllocError>
    ensures { IfOk result (IsTold (reader said.entry.name.now)) }
{
    let thing = input(alloc, INPUT, said.thing, said.help);
    let command = described(alloc, said);
    command.arg(thing)
}

/// A command that reads one thing and writes a file, which is given as `--out FILE`.
fn writer_command<'a>(alloc: Global, said: Reader<'a>) -> Result<Command<'a>, AllocError>
    ensures { IfOk result (IsTold (writer said.entry.name.now)) }
{
    with_argument(reader_command(alloc, said), out(alloc, "FILE", help::OUT))
}

/// A command that reads one thing and has this option without a value.
fn flagged_command<'a>(
    alloc: Global,
    said: Reader<'a>,
    name: &'a str,
    flag_help: &'a str,
) -> Result<Command<'a>, AllocError>
    ensures { IfOk result (IsTold (flagged said.entry.name.now name.entry.now)) }
{
    with_argument(reader_command(alloc, said), flag(alloc, name, flag_help))
}

/// A command that has a case audited, and the option `--workers N`.
fn auditor_command<'a>(alloc: Global, said: Reader<'a>) -> Result<Command<'a>, AllocError>
    ensures { IfOk result (IsTold (auditor said.entry.name.now)) }
{
    with_argument(reader_command(alloc, said), workers_option(alloc))
}

/// The command `graph CASE`, which has the options `--dot` and `--workers N`.
fn graph_command<'a>(alloc: Global) -> Result<Command<'a>, AllocError>
    ensures { IfOk result (IsTold graph) }
{
    let flagged = flagged_command(alloc, help::GRAPH, DOT, help::DOT_GRAPH);
    with_argument(flagged, workers_option(alloc))
}

/// The command `draw CASE --out FILE`, which has the options `--from STEP`, `--count N`, `--html` and `--workers N`.
fn draw_command<'a>(alloc: Global) -> Result<Command<'a>, AllocError>
    ensures { IfOk result (IsTold draw) }
{
    let from = word_option(alloc, FROM, "STEP", help::FROM_STEP);
    let count = word_option(alloc, COUNT, "N", help::COUNT_STEPS);
    let begun = with_argument(writer_command(alloc, help::DRAW), from);
    let ended = with_argument(begun, count);
    let paged = with_argument(ended, flag(alloc, HTML, help::HTML));
    with_argument(paged, workers_option(alloc))
}

/// The command `records FILE`, which has the options `--from I` and `--count N`.
fn records_command<'a>(alloc: Global) -> Result<Command<'a>, AllocError>
    ensures { IfOk result (IsTold records) }
{
    let from = word_option(alloc, FROM, "I", help::FROM);
    let count = word_option(alloc, COUNT, "N", help::COUNT);
    let begun = with_argument(reader_command(alloc, help::RECORDS), from);
    with_argument(begun, count)
}

/// The command `frame HEX`, which has the option `--later`.
fn frame_command<'a>(alloc: Global) -> Result<Command<'a>, AllocError>
    ensures { IfOk result (IsTold frame) }
{
    flagged_command(alloc, help::FRAME, LATER, help::LATER_FRAME)
}

/// The command `migrate FILE --out FILE`, which has the option `--later`.
fn migrate_command<'a>(alloc: Global) -> Result<Command<'a>, AllocError>
    ensures { IfOk result (IsTold migrate) }
{
    let flagged = flagged_command(alloc, help::MIGRATE, LATER, help::LATER_LOG);
    with_argument(flagged, out(alloc, "FILE", help::OUT))
}

/// The command `wire A B`, which has the options `--one-reference` and `--out FOLDER`.
fn wire_command<'a>(alloc: Global) -> Result<Command<'a>, AllocError>
    ensures { IfOk result (IsTold wire) }
{
    let both = with_argument(
        reader_command(alloc, help::WIRE),
        input(alloc, OTHER, "B", help::WIRE_B),
    );
    let flagged = with_argument(both, flag(alloc, ONE_REFERENCE, help::ONE_REFERENCE));
    with_argument(flagged, folder(alloc))
}

/// The command `join LOG .. --out FOLDER`.
fn join_command<'a>(alloc: Global) -> Result<Command<'a>, AllocError>
    ensures { IfOk result (IsTold join) }
{
    let join = described(alloc, help::JOIN);
    let listed = with_argument(Ok(join), inputs(alloc, help::JOIN));
    with_argument(listed, out(alloc, "FOLDER", help::JOIN_FOLDER))
}

/// The program without its commands.
fn bare<'a>(alloc: Global) -> Command<'a>
    ensures { IsTold top result }
{
    Command::new(alloc, "vataudit")
        .about(help::PROGRAM)
        .after_help(help::PROGRAM_END)
        .subcommand_required(true)
        .arg_required_else_help(true)
}

/// The program with its commands that read a case: `check`, `order`, `graph`, `run` and `draw`.
fn with_cases<'a>(alloc: Global) -> Result<Command<'a>, AllocError>
    ensures { IfOk result (IsTold judging) }
{
    let check = auditor_command(alloc, help::CHECK);
    let checking = with_command(Ok(bare(alloc)), check);
    let order = writer_command(alloc, help::ORDER);
    let ordering = with_command(checking, order);
    let graphing = with_command(ordering, graph_command(alloc));
    let run = auditor_command(alloc, help::RUN);
    let stepping = with_command(graphing, run);
    with_command(stepping, draw_command(alloc))
}

/// The program with those, and with its commands that read a log or frames: `vat`, `records`, `frame` and `frames`.
fn with_files<'a>(alloc: Global) -> Result<Command<'a>, AllocError>
    ensures { IfOk result (IsTold reading) }
{
    let vat = reader_command(alloc, help::VAT);
    let auditing = with_command(with_cases(alloc), vat);
    let listing = with_command(auditing, records_command(alloc));
    let framing = with_command(listing, frame_command(alloc));
    let frames = reader_command(alloc, help::FRAMES);
    with_command(framing, frames)
}

/// The program's command line, with its help: those commands and the ones that write a log or read several inputs, `migrate`,
/// `salvage`, `wire` and `join`.
///
/// # Errors
///
/// Out of memory.
pub(crate) fn command_line<'a>(alloc: Global) -> Result<Command<'a>, AllocError>
    ensures { IfOk result (IsTold program) }
{
    let migrated = with_command(with_files(alloc), migrate_command(alloc));
    let salvage = writer_command(alloc, help::SALVAGE);
    let salvaged = with_command(migrated, salvage);
    let wired = with_command(salvaged, wire_command(alloc));
    with_command(wired, join_command(alloc))
}
