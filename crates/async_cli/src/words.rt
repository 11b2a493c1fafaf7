//! The words of a call: a command, and options in any order, each at most once.

ghost use Rattle.std.specs.Prelude.{◌≡◌, ◌≤◌, is_some, option_and_then, map, option_map, codes, IfOk, IfSome};
ghost use Rattle.std.specs.Option.{option_copied};
ghost use Rattle.std.specs.String.{string_bytes};
ghost use Rattle.async_cli.specs.Words.{command_of, has_front, behind, is_digit, number_behind, number_of, sets_number, is_option, args_of, are_options, count_of, value_of, flags_stand_once, values_stand_once, are_allowed, flags_in, entry_in, args_text, number_in, fuel_in, bounds_in, options_in, AreBounds, seen, asked_of, entry_asked};

use arguments::{ArgsBad, read_bytes};
use pass_line::Options;
use std::alloc::{AllocError, Global};

/// What a call is to do.
#[derive(Clone, Copy, Debug, PartialEq, Eq)]
pub enum Command {
    /// To tell whether a module is accepted, and how large it is.
    Check,
    /// To print the modules and the code that the passes make of a module.
    Compile,
    /// To run a module on tasks.
    Run,
    /// To run a module in the order of its text.
    Source,
    /// To run a module as a journal tells.
    Replay,
}

/// What is to be printed beside an end.
#[derive(Clone, Copy, Debug, PartialEq, Eq)]
pub struct Flags {
    /// The line of steps and entries.
    pub steps: bool,
    /// The journal.
    pub journal: bool,
    /// The modules and the code that the passes make, before the end.
    pub print: bool,
}

/// How much a run may have.
#[derive(Clone, Copy, Debug, PartialEq, Eq)]
pub struct Bounds {
    /// The most objects that may be live at once.
    pub objects: u32,
    /// The most entries of the journal.
    pub entries: u32,
}

/// A command and its options.
#[derive(Clone, Copy)]
pub struct Asked<'a> {
    pub command: Command,
    /// The name of the function in which a run begins.
    pub entry: &'a [u8],
    /// The text of its arguments.
    pub args: &'a [u8],
    /// How many operations may begin where a module is run in the order of its text.
    pub fuel: u32,
    /// How parallel loops are split.
    pub options: Options,
    pub bounds: Bounds,
    pub flags: Flags,
}

/// The most fuel that can be asked for.
const MOST_FUEL: u32 = 16_777_216;

/// The most live objects that can be asked for.
const MOST_OBJECTS: u32 = 65_536;

/// The most entries that can be asked for.
const MOST_ENTRIES: u32 = 16_777_216;

/// The most workers for which loops can be split.
const MOST_WORKERS: u32 = 64;

/// The most iterations that a block can be asked to have at least.
const MOST_LEAST: u32 = 2_147_483_648;

/// What the words of a call ask for.
pub fn read_words<'a>(alloc: Global, words: &'a [String]) -> Result<Option<Asked<'a>>, AllocError>
    ensures asked { IfOk result (λ asked. option_map seen asked ≡ asked_of (map string_bytes words.entry.now)) }
    ensures bounds { IfOk result (λ asked. IfSome asked (λ a. AreBounds a.bounds)) }
{
    let Some((first, others)) = words.split_first() else {
        return Ok(None);
    };
    let Some(command) = read_command(first.as_str()) else {
        return Ok(None);
    };
    if !are_allowed(alloc, others)? {
        return Ok(None);
    }
    Ok(Some(Asked {
        command,
        entry: entry_in(others),
        args: args_in(others),
        fuel: fuel_in(others),
        options: options_in(others),
        bounds: bounds_in(others),
        flags: flags_in(others),
    }))
}

/// The name of the entry in the words behind the first.
pub fn entry_asked<'a>(words: &'a [String]) -> &'a [u8]
    ensures { result.now ≡ entry_asked (map string_bytes words.entry.now) }
{
    match words.split_first() {
        Some((_, others)) => entry_in(others),
        None => b"main",
    }
}

fn read_command(word: &str) -> Option<Command>
    ensures { result ≡ command_of word.now }
{
    match word {
        "check" => Some(Command::Check),
        "compile" => Some(Command::Compile),
        "run" => Some(Command::Run),
        "source" => Some(Command::Source),
        "replay" => Some(Command::Replay),
        _ => None,
    }
}

// ---- one word

fn has_front(word: &[u8], front: &[u8]) -> bool
    ensures { result ≡ has_front front.now word.now }
{
    front.len() <= word.len() && &word[..front.len()] == front
}

/// What stands in the word behind this beginning.
fn behind<'a>(word: &'a [u8], front: &[u8]) -> Option<&'a [u8]>
    ensures { option_copied result ≡ behind front.now word.entry.now }
{
    if has_front(word, front) {
        Some(&word[front.len()..])
    } else {
        None
    }
}

fn is_digit(byte: u8) -> bool
    ensures { result ≡ is_digit byte }
{
    byte >= b'0' && byte <= b'9'
}

/// The number that the digits write, where it is at most the most.
fn read_digits(bytes: &[u8], most: u32) -> Option<u32>
    ensures number { result ≡ number_behind most 0 bytes.now }
    ensures within { IfSome result (λ n. n ≤ most) }
{
    let mut number = 0u64;
    for byte in bytes {
        if !is_digit(*byte) {
            return None;
        }
        let longer = number * 10 + u64::from(*byte - b'0');
        if longer > u64::from(most) {
            return None;
        }
        number = longer;
    }
    Some(number as u32)
}

/// The number that a value says, from 1 to the most.
fn read_number(bytes: &[u8], most: u32) -> Option<u32>
    ensures number { result ≡ number_of most bytes.now }
    ensures within { IfSome result (λ n. n ≤ most) }
{
    if bytes.is_empty() {
        return None;
    }
    match read_digits(bytes, most) {
        Some(0) | None => None,
        Some(number) => Some(number),
    }
}

/// Whether the word is an option of this beginning, with such a number.
fn sets_number(word: &[u8], front: &[u8], most: u32) -> bool
    ensures { result ≡ sets_number front.now most word.now }
{
    match behind(word, front) {
        Some(value) => read_number(value, most).is_some(),
        None => false,
    }
}

fn are_args(alloc: Global, word: &[u8]) -> Result<bool, AllocError>
    ensures { IfOk result (λ are. are ≡ is_some (option_and_then args_of (behind (codes "--args=") word.now))) }
{
    match behind(word, b"--args=") {
        Some(value) => says_args(alloc, value),
        None => Ok(false),
    }
}

/// Whether a text says arguments.
fn says_args(alloc: Global, text: &[u8]) -> Result<bool, AllocError>
    ensures { IfOk result (λ says. says ≡ is_some (args_of text.now)) }
{
    match read_bytes(alloc, text) {
        Ok(_) => Ok(true),
        Err(ArgsBad::Byte { .. }) => Ok(false),
        Err(ArgsBad::OutOfMemory) => Err(AllocError),
    }
}

fn is_option(alloc: Global, word: &[u8]) -> Result<bool, AllocError>
    ensures { IfOk result (λ is. is ≡ is_option word.now) }
{
    if word == b"--steps".as_slice()
        || word == b"--journal".as_slice()
        || word == b"--print".as_slice()
        || has_front(word, b"--entry=")
        || sets_number(word, b"--fuel=", MOST_FUEL)
        || sets_number(word, b"--objects=", MOST_OBJECTS)
        || sets_number(word, b"--entries=", MOST_ENTRIES)
        || sets_number(word, b"--num-workers=", MOST_WORKERS)
        || sets_number(word, b"--min-task=", MOST_LEAST)
    {
        return Ok(true);
    }
    are_args(alloc, word)
}

// ---- the words after the command

fn are_options(alloc: Global, words: &[String]) -> Result<bool, AllocError>
    ensures { IfOk result (λ are. are ≡ are_options (map string_bytes words.now)) }
{
    for word in words {
        if !is_option(alloc, word.as_bytes())? {
            return Ok(false);
        }
    }
    Ok(true)
}

/// How many words begin like this.
fn count_of(words: &[String], front: &[u8]) -> usize
    ensures { result ≡ count_of front.now (map string_bytes words.now) }
{
    let mut count = 0;
    for word in words {
        if has_front(word.as_bytes(), front) {
            count += 1;
        }
    }
    count
}

/// The value behind the first such beginning.
fn value_of<'a>(words: &'a [String], front: &[u8]) -> Option<&'a [u8]>
    ensures { option_copied result ≡ value_of front.now (map string_bytes words.entry.now) }
{
    for word in words {
        if has_front(word.as_bytes(), front) {
            return Some(&word.as_bytes()[front.len()..]);
        }
    }
    None
}

/// Whether no flag stands twice.
fn flags_stand_once(words: &[String]) -> bool
    ensures { result ≡ flags_stand_once (map string_bytes words.now) }
{
    count_of(words, b"--steps") < 2
        && count_of(words, b"--journal") < 2
        && count_of(words, b"--print") < 2
}

/// Whether no option with a value stands twice.
fn values_stand_once(words: &[String]) -> bool
    ensures { result ≡ values_stand_once (map string_bytes words.now) }
{
    count_of(words, b"--entry=") < 2
        && count_of(words, b"--fuel=") < 2
        && count_of(words, b"--objects=") < 2
        && count_of(words, b"--entries=") < 2
        && count_of(words, b"--num-workers=") < 2
        && count_of(words, b"--min-task=") < 2
        && count_of(words, b"--args=") < 2
}

fn are_allowed(alloc: Global, words: &[String]) -> Result<bool, AllocError>
    ensures { IfOk result (λ are. are ≡ are_allowed (map string_bytes words.now)) }
{
    let once = flags_stand_once(words) && values_stand_once(words);
    let known = are_options(alloc, words)?;
    Ok(known && once)
}

fn flags_in(words: &[String]) -> Flags
    ensures { result ≡ flags_in (map string_bytes words.now) }
{
    Flags {
        steps: count_of(words, b"--steps") > 0,
        journal: count_of(words, b"--journal") > 0,
        print: count_of(words, b"--print") > 0,
    }
}

fn entry_in<'a>(words: &'a [String]) -> &'a [u8]
    ensures { result.now ≡ entry_in (map string_bytes words.entry.now) }
{
    match value_of(words, b"--entry=") {
        Some(name) => name,
        None => b"main",
    }
}

fn args_in<'a>(words: &'a [String]) -> &'a [u8]
    ensures { result.now ≡ args_text (map string_bytes words.entry.now) }
{
    match value_of(words, b"--args=") {
        Some(text) => text,
        None => b"",
    }
}

/// The number behind such a beginning; else this one.
fn number_in(words: &[String], front: &[u8], most: u32, otherwise: u32) -> u32
    requires { otherwise ≤ most }
    ensures number { result ≡ number_in front.now most otherwise (map string_bytes words.now) }
    ensures within { result ≤ most }
{
    match value_of(words, front) {
        Some(value) => match read_number(value, most) {
            Some(number) => number,
            None => otherwise,
        },
        None => otherwise,
    }
}

fn fuel_in(words: &[String]) -> u32
    ensures { result ≡ fuel_in (map string_bytes words.now) }
{
    number_in(words, b"--fuel=", MOST_FUEL, 1_000_000)
}

fn options_in(words: &[String]) -> Options
    ensures { result ≡ options_in (map string_bytes words.now) }
{
    Options {
        workers: number_in(words, b"--num-workers=", MOST_WORKERS, 8),
        least: number_in(words, b"--min-task=", MOST_LEAST, 1_000),
    }
}

fn bounds_in(words: &[String]) -> Bounds
    ensures bounds { result ≡ bounds_in (map string_bytes words.now) }
    ensures within { AreBounds result }
{
    Bounds {
        objects: number_in(words, b"--objects=", MOST_OBJECTS, 4_096),
        entries: number_in(words, b"--entries=", MOST_ENTRIES, 4_194_304),
    }
}
