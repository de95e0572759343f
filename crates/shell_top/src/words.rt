//! The words behind the program's name.
ghost use Rattle.std.specs.Prelude.{◌≡◌, IfOk, IfSome, false, map, string_bytes, option_map};
ghost use Rattle.std.specs.List.{list_any};
ghost use Rattle.clap.specs.Matches.{first_value, found_of};
ghost use Rattle.clap.specs.Simple.{app_of};
ghost use Rattle.clap.specs.Walk.{rule_of};
ghost use Rattle.frag_map.specs.Shape.{IsShape};
ghost use Rattle.shell_top.specs.Words.{IsAskable, asked_by, asked_in, asked_of, flag, if_sound, is_given, is_separator, ndb, number, number_or, option, shape_in, with_shape};

use clap::error::ErrorKind;
use clap::{Arg, ArgAction, ArgMatches, Command};
use frag_map::is_shape;
use script_lang::read_digits;
use sig_core::{NoMemory, Shape};
use std::alloc::Global;

/// The most digits of a value.
const DIGITS: usize = 20;

/// The nodes, the replicas and the fragments where the words tell nothing of them.
const NODES: u8 = 2;

const REPLICAS: u8 = 2;

const FRAGMENTS: u8 = 4;

/// What the words ask for.
#[derive(Clone, Copy, Debug, PartialEq, Eq)]
pub enum Asked {
    /// A session of a cluster of this shape, and its replies.
    Replies(Shape),
    /// A session of a cluster of this shape, and in place of its replies the trace of its last life.
    Trace(Shape),
    /// Whether what is read is the trace of a right life, and its history.
    Check,
}

/// What the words ask for, of a cluster that there may be. `None` where they are refused.
///
/// # Errors
/// `NoMemory`.
pub fn asked_of(alloc: Global, words: &[String]) -> Result<Option<Asked>, NoMemory>
    ensures told { IfOk result (λ asked. asked ≡ asked_of (map string_bytes words.now)) }
    ensures sound { IfOk result (λ asked. IfSome asked IsAskable) }
{
    if has_separator(words) {
        return Ok(None);
    }
    match command(alloc)?.try_get_matches_from(words) {
        Ok(matches) => Ok(asked_in(&matches)),
        Err(fault) if fault.kind() == ErrorKind::OutOfMemory => Err(NoMemory),
        Err(_) => Ok(None),
    }
}

/// Whether the word `--` is among the words.
fn has_separator(words: &[String]) -> bool
    ensures { result ≡ list_any is_separator (map string_bytes words.now) }
{
    for word in words {
        if word.as_bytes() == b"--".as_slice() {
            return true;
        }
    }
    false
}

/// The command that the words are read as.
///
/// # Errors
/// `NoMemory`.
fn command<'a>(alloc: Global) -> Result<Command<'a>, NoMemory>
    ensures { IfOk result (λ command. app_of command ≡ ndb) }
{
    let with_trace = with_shape(alloc)?.arg(flag(alloc, "trace"))?;
    Ok(with_trace.arg(flag(alloc, "check"))?)
}

/// A command with the options of the shape.
///
/// # Errors
/// `NoMemory`.
fn with_shape<'a>(alloc: Global) -> Result<Command<'a>, NoMemory>
    ensures { IfOk result (λ command. app_of command ≡ with_shape) }
{
    let bare = Command::new(alloc, "ndb")
        .no_binary_name(true)
        .disable_help_flag(true);
    let with_nodes = bare.arg(option(alloc, "nodes"))?;
    let with_replicas = with_nodes.arg(option(alloc, "replicas"))?;
    Ok(with_replicas.arg(option(alloc, "fragments"))?)
}

/// An option with a value.
fn option<'a>(alloc: Global, name: &'a str) -> Arg<'a>
    ensures rule { rule_of result ≡ option name.entry.now }
    ensures local { result.global ≡ false }
{
    Arg::new(alloc, name).long(name)
}

/// A flag, which has no value.
fn flag<'a>(alloc: Global, name: &'a str) -> Arg<'a>
    ensures rule { rule_of result ≡ flag name.entry.now }
    ensures local { result.global ≡ false }
{
    Arg::new(alloc, name).long(name).action(ArgAction::SetTrue)
}

/// What flags and the values of options tell.
fn asked_in(matches: &ArgMatches) -> Option<Asked>
    ensures told { result ≡ asked_in (first_value (found_of matches.now)) }
    ensures sound { IfSome result IsAskable }
{
    let is_trace = is_given(matches, "trace");
    let is_check = is_given(matches, "check");
    asked_by(is_trace, is_check, shape_in(matches)?)
}

/// Whether a flag stands among the words: its value is then the text `true`, and else `false`.
fn is_given(matches: &ArgMatches, name: &str) -> bool
    ensures { result ≡ is_given (first_value (found_of matches.now) name.now) }
{
    match matches.get_str(name) {
        Some(value) => value.as_bytes() == b"true".as_slice(),
        None => false,
    }
}

/// What is asked for by these flags, of a cluster of this shape. Nothing is asked for by both.
fn asked_by(is_trace: bool, is_check: bool, shape: Shape) -> Option<Asked>
    requires { IsShape shape }
    ensures told { result ≡ asked_by is_trace is_check shape }
    ensures sound { IfSome result IsAskable }
{
    match (is_trace, is_check) {
        (false, false) => Some(Asked::Replies(shape)),
        (true, false) => Some(Asked::Trace(shape)),
        (false, true) => Some(Asked::Check),
        (true, true) => None,
    }
}

/// The shape that the values of options tell.
fn shape_in(matches: &ArgMatches) -> Option<Shape>
    ensures told { result ≡ shape_in (first_value (found_of matches.now)) }
    ensures sound { IfSome result IsShape }
{
    let nodes = number_or(NODES, matches.get_str("nodes"))?;
    let replicas = number_or(REPLICAS, matches.get_str("replicas"))?;
    let fragments = number_or(FRAGMENTS, matches.get_str("fragments"))?;
    if_sound(Shape {
        nodes,
        replicas,
        fragments,
    })
}

/// The number that a value tells, or the default where there is none.
fn number_or(default: u8, value: Option<&str>) -> Option<u8>
    ensures { result ≡ number_or default (option_map (λ text. text.now) value.entry) }
{
    match value {
        None => Some(default),
        Some(text) => number(text),
    }
}

/// The number that 1 to 20 decimal digits tell, if it is at most 255.
fn number(text: &str) -> Option<u8>
    ensures { result ≡ number text.now }
{
    if text.is_empty() || text.len() > DIGITS {
        return None;
    }
    let number = read_digits(text.as_bytes(), 255)?;
    Some(number as u8)
}

/// The shape, if a cluster may be laid out so.
fn if_sound(shape: Shape) -> Option<Shape>
    ensures told { result ≡ if_sound shape }
    ensures sound { IfSome result IsShape }
{
    if is_shape(&shape) { Some(shape) } else { None }
}
