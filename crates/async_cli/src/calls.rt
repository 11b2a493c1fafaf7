//! The call that a run begins with, and the code that it is made of.

ghost use Rattle.std.specs.Prelude.{◌≡◌, ◌<◌, ◌^◌, length, slice_get, map, true, IfOk, MatchResult, ◌≤◌};
ghost use Rattle.arguments.specs.Fits.{Fits, fitted_args};
ghost use Rattle.op_table.specs.Rows.{place_of};
ghost use Rattle.pass_line.specs.Texts.{all_texts};
ghost use Rattle.source_meaning.specs.Parts.{func_params};
ghost use Rattle.async_cli.specs.Answers.{EntryStops, FitStops, Names};
ghost use Rattle.async_cli.specs.declared.stops.Stop.TheVariants.{OutOfMemory};
ghost use Rattle.async_cli.specs.Calls.{Call, IsAsked, IsCall, IsListing, IsLoaded, IsMade, IsMadeFor, Stands, TextStops, held};
ghost use Rattle.async_cli.specs.Words as spec;
ghost use Rattle.async_cli.specs.Words.{seen};

use crate::input::{args_said, entry_number, read_module};
use crate::stops::Stop;
use crate::words::Asked;
use arguments::{BadArgs, fit_args};
use ir_forms::{ArgValue, FuncNo, Level, Ty, ValueNo};
use ir_verify::Verified;
use line_laws::functions_stand;
use lists::Items;
use low_forms::LowModule;
use pass_line::{Options, Texts, compile, lower, push_texts};
use run_report::Notes;
use std::alloc::{AllocError, Global};

/// The function that is called, and what its parameters hold.
#[derive(Drop)]
pub(crate) struct EntryCall {
    pub(crate) function: FuncNo,
    pub(crate) values: Items<ArgValue>,
}

/// What the passes make of a module: its code, and their texts, or none.
#[derive(Drop)]
pub(crate) struct Made {
    pub(crate) low: LowModule,
    pub(crate) printed: Vec<u8>,
}

/// The code of a call, with what is printed before its end, and the messages of the module that it was made of.
#[derive(Drop)]
pub(crate) struct Loaded {
    pub(crate) low: LowModule,
    pub(crate) printed: Vec<u8>,
    pub(crate) notes: Notes,
    pub(crate) call: EntryCall,
}

/// The code of the call that is asked for, of the module whose text this is, with the texts of the passes where they are to be
/// printed.
pub(crate) fn read_call(
    alloc: Global,
    text: &[u8],
    asked: Asked,
    print: bool,
) -> Result<Loaded, Stop>
    requires { length text.now < 2 ^ 32 }
    ensures { MatchResult result (λ loaded. (c : Call) × (IsCall text.now (seen asked.entry) c × (IsLoaded asked.entry.options print c loaded × Stands (held loaded)))) (λ stop. TextStops text.now (seen asked.entry) stop) }
{
    functions_stand();
    match read_module(alloc, text) {
        Ok(verified) => load(alloc, verified, asked, print),
        Err(stop) => Err(stop),
    }
}

/// The code of the call that is asked for, of this module.
fn load(alloc: Global, verified: Verified, asked: Asked, print: bool) -> Result<Loaded, Stop>
    ensures { MatchResult result (λ loaded. (c : Call) × ((c.program ≡ verified.program) × (IsAsked (seen asked.entry) c × IsLoaded asked.entry.options print c loaded))) (λ stop. EntryStops verified.program (seen asked.entry) stop) }
{
    match find_call(alloc, &verified, asked) {
        Ok(call) => load_call(alloc, verified, call, asked.options, print),
        Err(stop) => Err(stop),
    }
}

/// The entry that is asked for, with its arguments.
fn find_call(alloc: Global, verified: &Verified, asked: Asked) -> Result<EntryCall, Stop>
    ensures { MatchResult result (λ call. Names verified.now.program (seen asked.entry) call.function (Fits call.values)) (λ stop. EntryStops verified.now.program (seen asked.entry) stop) }
{
    let function = match entry_number(verified, asked.entry) {
        Ok(function) => function,
        Err(stop) => return Err(stop),
    };
    match fit(alloc, params_at(verified, function), asked.args) {
        Ok(values) => Ok(EntryCall { function, values }),
        Err(stop) => Err(stop),
    }
}

/// The parameters of a function; one that isn't there has none.
fn params_at(verified: &Verified, function: FuncNo) -> &[(ValueNo, Ty)]
    ensures { result.now ≡ func_params (slice_get verified.now.program.funcs function.0) }
{
    match verified.module().funcs.get(function.0 as usize) {
        Some(func) => func.params.as_slice(),
        None => &[],
    }
}

/// What the arguments that a text says come to for these parameters.
fn fit(alloc: Global, params: &[(ValueNo, Ty)], text: &[u8]) -> Result<Items<ArgValue>, Stop>
    ensures { MatchResult result (λ values. fitted_args (map (λ p. p.1) params.now) (spec.args_said text.now) ≡ Fits values) (λ stop. FitStops (map (λ p. p.1) params.now) (spec.args_said text.now) stop) }
{
    let Ok(args) = args_said(alloc, text) else {
        return Err(Stop::OutOfMemory);
    };
    match fit_args(alloc, params, args.as_slice()) {
        Ok(values) => Ok(values),
        Err(BadArgs::Argument { at }) => Err(Stop::unfit(at)),
        Err(BadArgs::OutOfMemory) => Err(Stop::OutOfMemory),
    }
}

/// The code of a module, with the messages of its operations, for this call.
fn load_call(
    alloc: Global,
    verified: Verified,
    call: EntryCall,
    options: Options,
    print: bool,
) -> Result<Loaded, Stop>
    ensures { MatchResult result (λ loaded. IsMadeFor options print verified.program call loaded) (λ stop. stop ≡ OutOfMemory) }
{
    match Notes::of(alloc, verified.module()) {
        Ok(notes) => match make(alloc, verified, options, print) {
            Ok(Made { low, printed }) => Ok(Loaded {
                low,
                printed,
                notes,
                call,
            }),
            Err(_) => Err(Stop::OutOfMemory),
        },
        Err(_) => Err(Stop::OutOfMemory),
    }
}

/// The code of a module that was read at the level of source text, with the texts of the passes where they are to be printed. One
/// of a later level isn't read there.
fn make(
    alloc: Global,
    verified: Verified,
    options: Options,
    print: bool,
) -> Result<Made, AllocError>
    ensures { IfOk result (λ made. IsMade options print verified.program made) }
{
    let is_source = verified.level() == Level::Source;
    if !is_source {
        return Err(AllocError);
    }
    if print {
        return make_printed(alloc, verified, options);
    }
    match lower(alloc, verified, options) {
        Ok(low) => Ok(Made {
            low,
            printed: Vec::new(alloc),
        }),
        Err(_) => Err(AllocError),
    }
}

/// The code of a module, with the texts of the passes.
fn make_printed(alloc: Global, verified: Verified, options: Options) -> Result<Made, AllocError>
    requires { place_of verified.level ≤ place_of Level.Checked }
    ensures { IfOk result (λ made. IsMade options true verified.program made) }
{
    match compile(alloc, verified, options) {
        Ok(compiled) => match listing(alloc, &compiled.texts) {
            Ok(printed) => Ok(Made {
                low: compiled.code,
                printed,
            }),
            Err(_) => Err(AllocError),
        },
        Err(_) => Err(AllocError),
    }
}

/// The texts of the passes, each behind a line that names its pass.
fn listing(alloc: Global, texts: &Texts) -> Result<Vec<u8>, AllocError>
    ensures { IfOk result (λ text. text.items ≡ all_texts texts.now) }
{
    let mut text = Vec::new(alloc);
    push_texts(&mut text, texts)?;
    Ok(text)
}

/// The texts of the passes over a module that was read at the level of source text.
pub(crate) fn list(
    alloc: Global,
    verified: Verified,
    options: Options,
) -> Result<Vec<u8>, AllocError>
    ensures { IfOk result (λ text. IsListing options verified.program text.items) }
{
    match make(alloc, verified, options, true) {
        Ok(made) => Ok(made.printed),
        Err(_) => Err(AllocError),
    }
}
