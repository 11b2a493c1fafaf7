//! The function in which a run begins.
ghost use Rattle.std.specs.Prelude.{◌≡◌, ◌<◌, ◌^◌, length};
ghost use Rattle.ir_verify.specs.Breaks.{some_at};
ghost use Rattle.ir_verify.specs.Entry.{is_async, is_async_or_memref, param_is_async, result_is_refused, is_refused_entry, entry_from};
ghost use Rattle.std.specs.Str.{bytes_eq};

use crate::verified::Verified;
use ir_forms::{Func, FuncNo, Ty, ValueNo};
use thiserror::Error;

/// Why a run can't begin in a function of this name.
#[derive(Clone, Copy, PartialEq, Eq, Debug, Error)]
pub enum EntryFault {
    #[error("no entry")]
    NoEntry,
    /// The function with this operation number has an async parameter, an async result or a memref
    /// result.
    #[error("entry type at operation {op}")]
    EntryType { op: u32 },
}

fn is_async(t: &Ty) -> bool
    ensures { result ≡ is_async t.now }
{
    matches!(t, Ty::Token | Ty::Value(_) | Ty::Group)
}

fn is_async_or_memref(t: &Ty) -> bool
    ensures { result ≡ is_async_or_memref t.now }
{
    match t {
        Ty::Memref(_) => true,
        _ => is_async(t),
    }
}

fn some_async_param(params: &[(ValueNo, Ty)]) -> bool
    ensures { result ≡ some_at param_is_async params.now }
{
    for (place, param) in params.iter().enumerate() {
        let _place = place; // counted, since the contract speaks of places
        if is_async(&param.1) {
            return true;
        }
    }
    false
}

fn some_refused_result(types: &[Ty]) -> bool
    ensures { result ≡ some_at result_is_refused types.now }
{
    for (place, t) in types.iter().enumerate() {
        let _place = place; // counted, since the contract speaks of places
        if is_async_or_memref(t) {
            return true;
        }
    }
    false
}

fn is_refused_entry(func: &Func) -> bool
    ensures { result ≡ is_refused_entry func.now }
{
    some_async_param(func.params.as_slice()) || some_refused_result(func.results.as_slice())
}

fn has_name(func: &Func, name: &[u8]) -> bool
    ensures { result ≡ bytes_eq func.now.name name.now }
{
    func.name.as_slice() == name
}

fn entry_among(funcs: &[Func], name: &[u8]) -> Result<FuncNo, EntryFault>
    requires { length funcs.now < 2 ^ 32 }
    ensures { result ≡ entry_from 0 funcs.now name.now }
{
    for (place, func) in funcs.iter().enumerate() {
        if has_name(func, name) {
            return if is_refused_entry(func) {
                Err(EntryFault::EntryType { op: func.at })
            } else {
                Ok(FuncNo(place as u32))
            };
        }
    }
    Err(EntryFault::NoEntry)
}

/// The first function of a name. `NoEntry` comes exactly where there is none, and `EntryType`
/// exactly where it has an async parameter, an async result or a memref result.
pub fn entry_of(program: &Verified, name: &[u8]) -> Result<FuncNo, EntryFault>
    requires { length program.now.program.funcs < 2 ^ 32 }
    ensures { result ≡ entry_from 0 program.now.program.funcs name.now }
{
    entry_among(program.module().funcs.as_slice(), name)
}
