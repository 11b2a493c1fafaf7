//! `run`: one module, from bytes to the text of its run's end.

ghost use Rattle.std.specs.Prelude.{◌≡◌, ℕ, List, [], map, option_map, IfOk, IfSome, MatchResult, None, Some};
ghost use Rattle.std.specs.String.{string_bytes};
ghost use Rattle.aio_base.specs.Whole.{Told};
ghost use Rattle.async_cli.specs.declared.words.Command.TheVariants.{Run};
ghost use Rattle.async_cli.specs.Words.{AreBounds, seen, asked_of, AsksFor};
ghost use Rattle.async_cli.specs.Answers.{Given, Gave, IsWritten};
ghost use Rattle.async_cli.specs.Runs.{Answers, Causes, Ends, stop_after};
ghost use Rattle.async_cli.specs.Stops.{status_after, stop_status, stop_text};

use crate::answering::{Written, status_after, write_cause, write_text};
use crate::calls::read_call;
use crate::input::{TEXT_LIMIT, read_input};
use crate::runs::run_printed;
use crate::serving::End;
use crate::stops::Stop;
use crate::tool_stops::ToolStop;
use crate::words::{Asked, Command, entry_asked, read_words};
use aio_base::{Gate, Sink, Source};
use std::alloc::{AllocError, Global};
use std::sync::Wait;
use std::thread::Threads;
use step_core::Entry;

/// What `run` answers: its exit status, the journal of the run, and why there is no end of a run,
/// or why it wasn't written.
#[derive(Drop)]
pub struct RunEnd {
    pub status: u8,
    pub journal: Vec<Entry>,
    pub stop: Option<Stop>,
}

/// Reads a module, runs its entry and writes the text of the end.
///
/// `words` are those after the program's name. The run's tasks take their turns on this thread, so
/// `rt` and `gate` aren't used yet.
pub fn run<R: Threads + Wait + Sync, S: Source, K: Sink, G: Gate + Sync>(
    _rt: &R,
    alloc: Global,
    words: &[String],
    source: &mut S,
    sink: &mut K,
    _gate: &G,
) -> RunEnd
    ensures { let given : Given = record {
      words = map string_bytes words.now;
      source = record {
        left = S.left source.old;
        left_after = S.left source.new;
        faults = S.faults source.old;
        faults_after = S.faults source.new;
      };
    } in
        let gave : Gave = record {
          taken = K.taken sink.old;
          taken_after = K.taken sink.new;
          faults = K.faults sink.old;
          faults_after = K.faults sink.new;
        } in
        Answers given gave result.journal.items result.status result.stop }
{
    let read = read_words(alloc, words);
    let mut journal = Vec::new(alloc);
    let told = tell(alloc, read, source, &mut journal);
    let written = write(alloc, sink, entry_asked(words), &told);
    RunEnd {
        status: status_after(status_of(&told), written),
        journal,
        stop: stop_after(stop_in(&told), written),
    }
}

/// Writes the text of an end, or of the cause why there is none.
fn write<K: Sink>(alloc: Global, sink: &mut K, entry: &[u8], told: &Result<End, Stop>) -> Written
    ensures { let gave : Gave = record {
      taken = K.taken sink.old;
      taken_after = K.taken sink.new;
      faults = K.faults sink.old;
      faults_after = K.faults sink.new;
    } in
        MatchResult told.now (λ end. IsWritten gave end.text.items result) (λ stop. IsWritten gave (stop_text entry.now stop) result) }
{
    match told {
        Ok(end) => write_text(sink, end.text.as_slice()),
        Err(stop) => write_cause(alloc, sink, entry, ToolStop::Shared(*stop)),
    }
}

fn status_of(told: &Result<End, Stop>) -> u8
    ensures { MatchResult told.now (λ end. result ≡ end.status) (λ stop. result ≡ stop_status stop) }
{
    match told {
        Ok(end) => end.status,
        Err(stop) => stop.status(),
    }
}

fn stop_in(told: &Result<End, Stop>) -> Option<Stop>
    ensures { MatchResult told.now (λ end. result ≡ None) (λ stop. result ≡ Some stop) }
{
    match told {
        Ok(_) => None,
        Err(stop) => Some(*stop),
    }
}

fn stop_after(answer: Option<Stop>, written: Written) -> Option<Stop>
    ensures { result ≡ stop_after answer written }
{
    match written {
        Written::Whole => answer,
        Written::Broken { written } => Some(Stop::Write { written }),
        Written::NoMemory => Some(Stop::OutOfMemory),
    }
}

/// What these words are told: the end of the run, or why there is none.
fn tell<S: Source>(
    alloc: Global,
    read: Result<Option<Asked>, AllocError>,
    source: &mut S,
    journal: &mut Vec<Entry>,
) -> Result<End, Stop>
    requires bounds { IfOk read (λ asked. IfSome asked (λ a. AreBounds a.bounds)) }
    requires empty { journal.old.items ≡ [] }
    ensures { (words : List (List ℕ)) → IfOk read.entry (λ asked. option_map seen asked ≡ asked_of words) →
        let given : Given = record {
          words = words;
          source = record {
            left = S.left source.old;
            left_after = S.left source.new;
            faults = S.faults source.old;
            faults_after = S.faults source.new;
          };
        } in
        MatchResult result (λ end. Ends given journal.new.items end.status end.text.items) (λ stop. Causes given journal.new.items stop) }
{
    match read {
        Ok(Some(asked)) => match asked.command {
            Command::Run => tell_run(alloc, asked, source, journal),
            Command::Check => Err(Stop::Words),
            Command::Compile => Err(Stop::Words),
            Command::Source => Err(Stop::Words),
            Command::Replay => Err(Stop::Words),
        },
        Ok(None) => Err(Stop::Words),
        Err(_) => Err(Stop::OutOfMemory),
    }
}

/// Reads and runs, and makes the text of the end.
fn tell_run<S: Source>(
    alloc: Global,
    asked: Asked,
    source: &mut S,
    journal: &mut Vec<Entry>,
) -> Result<End, Stop>
    requires bounds { AreBounds asked.bounds }
    requires empty { journal.old.items ≡ [] }
    ensures { (words : List (List ℕ)) → AsksFor Run words (seen asked.entry) →
        let given : Given = record {
          words = words;
          source = record {
            left = S.left source.old;
            left_after = S.left source.new;
            faults = S.faults source.old;
            faults_after = S.faults source.new;
          };
        } in
        MatchResult result (λ end. Ends given journal.new.items end.status end.text.items) (λ stop. Causes given journal.new.items stop) }
{
    let text = match read_input(alloc, source, TEXT_LIMIT) {
        Ok(text) => text,
        Err(stop) => return Err(stop),
    };
    match read_call(alloc, &text, asked, asked.flags.print) {
        Ok(loaded) => run_printed(alloc, &loaded, asked.bounds, asked.flags, journal),
        Err(stop) => Err(stop),
    }
}
