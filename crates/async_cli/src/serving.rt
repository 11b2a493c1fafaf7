//! The commands that wait for nothing.

ghost use Rattle.std.specs.Prelude.{◌≡◌, ℕ, List, [], Ok, Err, IfOk, MatchResult, map, option_map};
ghost use Rattle.std.specs.String.{string_bytes};
ghost use Rattle.aio_base.specs.Whole.{Told};
ghost use Rattle.async_cli.specs.Words.{seen, asked_of, entry_asked as name_asked};
ghost use Rattle.async_cli.specs.Answers.{Given, Gave, IsWritten};
ghost use Rattle.async_cli.specs.Stops.{status_after, tool_status, tool_text};
ghost use Rattle.async_cli.specs.Tools.{ToolAnswers, ToolOwes, CommandEnds, CommandCauses};

use crate::answering::{Written, status_after, write_cause, write_text};
use crate::checks::{tell_check, tell_compile};
use crate::replays::tell_replay;
use crate::sources::tell_source;
use crate::stops::Stop;
use crate::tool_stops::ToolStop;
use crate::words::{Asked, Command, entry_asked, read_words};
use aio_base::{Sink, Source};
use std::alloc::{AllocError, Global};

/// The end of a command: the exit status, and the text.
#[derive(Drop)]
pub(crate) struct End {
    pub(crate) status: u8,
    pub(crate) text: Vec<u8>,
}

/// Serves the commands other than `run`, and answers the exit status.
pub fn tool<S: Source, K: Sink>(alloc: Global, words: &[String], source: &mut S, sink: &mut K) -> u8
    ensures { let given : Given = record {
      words = map string_bytes words.now;
      source = record {
        left = S.left source.old;
        left_after = S.left source.new;
        faults = S.faults source.old;
        faults_after = S.faults source.new;
      };
    } in
        let gave : Gave = record {
          taken = K.taken sink.old;
          taken_after = K.taken sink.new;
          faults = K.faults sink.old;
          faults_after = K.faults sink.new;
        } in
        ToolAnswers given gave result }
{
    let read = read_words(alloc, words);
    let told = tell(alloc, read, source);
    let written = write(alloc, sink, entry_asked(words), &told);
    status_after(status_of(&told), written)
}

/// What these words are told.
fn tell<S: Source>(
    alloc: Global,
    read: Result<Option<Asked>, AllocError>,
    source: &mut S,
) -> Result<End, ToolStop>
    ensures { (words : List (List ℕ)) → IfOk read.entry (λ asked. option_map seen asked ≡ asked_of words) →
        let given : Given = record {
          words = words;
          source = record {
            left = S.left source.old;
            left_after = S.left source.new;
            faults = S.faults source.old;
            faults_after = S.faults source.new;
          };
        } in
        MatchResult result (λ end. ToolOwes given end.status end.text.items) (λ stop. ToolOwes given (tool_status stop) (tool_text (name_asked words) stop)) }
{
    match read {
        Ok(Some(asked)) => serve(alloc, asked, source),
        Ok(None) => Err(ToolStop::Shared(Stop::Words)),
        Err(_) => Err(ToolStop::Shared(Stop::OutOfMemory)),
    }
}

/// Serves a command. A new one has its line here.
fn serve<S: Source>(alloc: Global, asked: Asked, source: &mut S) -> Result<End, ToolStop>
    ensures { let told : Told = record {
      left = S.left source.old;
      left_after = S.left source.new;
      faults = S.faults source.old;
      faults_after = S.faults source.new;
    } in
        MatchResult result (λ end. CommandEnds asked.entry.command told (seen asked.entry) end.status end.text.items) (λ stop. CommandCauses asked.entry.command told (seen asked.entry) stop) }
{
    match asked.command {
        Command::Check => done(tell_check(alloc, source)),
        Command::Source => tell_source(alloc, asked, source),
        Command::Replay => tell_replay(alloc, asked, source),
        Command::Compile => done(tell_compile(alloc, asked.options, source)),
        Command::Run => Err(ToolStop::Shared(Stop::Words)),
    }
}

/// An end whose status is 0.
fn done(told: Result<Vec<u8>, ToolStop>) -> Result<End, ToolStop>
    ensures { MatchResult result (λ end. (end.status ≡ 0) × (told ≡ Ok end.text)) (λ stop. told ≡ Err stop) }
{
    match told {
        Ok(text) => Ok(End { status: 0, text }),
        Err(stop) => Err(stop),
    }
}

fn status_of(told: &Result<End, ToolStop>) -> u8
    ensures { MatchResult told.now (λ end. result ≡ end.status) (λ stop. result ≡ tool_status stop) }
{
    match told {
        Ok(end) => end.status,
        Err(stop) => stop.status(),
    }
}

fn write<K: Sink>(
    alloc: Global,
    sink: &mut K,
    entry: &[u8],
    told: &Result<End, ToolStop>,
) -> Written
    ensures { let gave : Gave = record {
      taken = K.taken sink.old;
      taken_after = K.taken sink.new;
      faults = K.faults sink.old;
      faults_after = K.faults sink.new;
    } in
        MatchResult told.now (λ end. IsWritten gave end.text.items result) (λ stop. IsWritten gave (tool_text entry.now stop) result) }
{
    match told {
        Ok(end) => write_text(sink, end.text.as_slice()),
        Err(stop) => write_cause(alloc, sink, entry, *stop),
    }
}
