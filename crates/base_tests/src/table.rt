//! The table of operations.
use op_table::{Level, OpKind, find, row};

#[test]
fn finds_names_of_each_dialect(rt: HostRuntime) {
    let named = [
        ("module", OpKind::BuiltinModule),
        ("func.func", OpKind::FuncFunc),
        ("arith.index_castui", OpKind::ArithIndexCastui),
        ("cf.assert", OpKind::CfAssert),
        ("scf.while", OpKind::ScfWhile),
        ("memref.dealloc", OpKind::MemrefDealloc),
        ("async.await", OpKind::AsyncAwait),
        ("async.await_all", OpKind::AsyncAwaitAll),
        ("async.runtime.await", OpKind::AsyncRuntimeAwait),
        (
            "async.runtime.await_and_resume",
            OpKind::AsyncRuntimeAwaitAndResume,
        ),
        ("async.coro.suspend", OpKind::AsyncCoroSuspend),
        ("aio.try_call", OpKind::AioTryCall),
    ];
    for (name, kind) in named {
        assert_eq!(rt; find(name), Some(kind));
        assert_eq!(rt; row(kind).name, name);
    }
}

#[test]
fn finds_no_kind_by_other_words(rt: HostRuntime) {
    let words = [
        "",
        "call",
        "return",
        "loc",
        "else",
        "do",
        "true",
        "memref",
        "arith.add",
        "arith.addii",
        "Arith.addi",
        "aio",
        "zzz",
        "async.runtime.num_worker_threads",
        "scf.yield ",
    ];
    for word in words {
        assert_eq!(rt; find(word), None);
    }
}

#[test]
fn rows_stand_from_their_level_on(rt: HostRuntime) {
    let levels = [Level::Source, Level::Checked, Level::Split, Level::Low];
    let firsts = [
        (OpKind::ScfParallel, 0),
        (OpKind::MemrefDealloc, 0),
        (OpKind::AioTryCall, 2),
        (OpKind::AioCall, 3),
        (OpKind::AsyncRuntimeDropRef, 3),
    ];
    for (kind, first) in firsts {
        for (place, level) in levels.iter().enumerate() {
            assert_eq!(rt; kind.stands_at(*level), place >= first);
        }
    }
}
