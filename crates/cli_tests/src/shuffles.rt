//! Journals in other orders: where such a journal is possible, its run has the same end.
ghost use Rattle.std.specs.Prelude.{◌+◌, ◌<◌, length};

use crate::harness::{answer, words_of};
use aio_base::{MemSink, MemSource, OpenGate};
use async_cli::run;
use run_journal::push_journal;
use std::alloc::{AllocError, Global};
use std::test::Fail;
use step_core::Entry;

const MODULES: [&str; 3] = [
    "func.func @main() -> i64 { %t, %v = async.execute -> !async.value<i64> { %c = arith.constant 7 : i64 async.yield %c : i64 } %r = async.await %v : !async.value<i64> return %r : i64 }\n",
    "func.func @main() { %t = async.execute { %f = arith.constant false cf.assert %f, \"no\" async.yield } %u = async.execute [%t] { async.yield } async.await %u : !async.token return }\n",
    "func.func @main() { %n = arith.constant 2 : index %g = async.create_group %n : !async.group %t = async.execute { async.yield } %u = async.execute { async.yield } %r = async.add_to_group %t, %g : !async.token %s = async.add_to_group %u, %g : !async.token async.await_all %g return }\n",
];

// The module's text and these entries, of which those at this place and behind it are exchanged.
fn exchanged(
    alloc: Global,
    module: &str,
    entries: &[Entry],
    at: usize,
) -> Result<Vec<u8>, AllocError>
    requires { at + 1 < length entries.now }
{
    let mut text = module.as_bytes().to_vec(alloc)?;
    text.extend_from_slice(b"-- journal\n")?;
    push_journal(&mut text, &entries[..at])?;
    push_journal(&mut text, &entries[at + 1..at + 2])?;
    push_journal(&mut text, &entries[at..at + 1])?;
    push_journal(&mut text, &entries[at + 2..])?;
    Ok(text)
}

#[test]
fn has_one_end_in_other_orders(rt: HostRuntime) -> Result<(), Fail> {
    let alloc = rt.alloc();
    let words = words_of(alloc, "run --steps")?;
    let replays = words_of(alloc, "replay --steps")?;
    for module in MODULES {
        let mut source = MemSource::new(module.as_bytes().to_vec(alloc)?, Vec::new(alloc));
        let mut sink = MemSink::new(alloc, 4096, 4096, Vec::new(alloc))?;
        let end = run(
            &rt,
            alloc,
            words.as_slice(),
            &mut source,
            &mut sink,
            &OpenGate,
        );
        let told = str::from_utf8(sink.taken()).unwrap_or("");
        let owed = format!(in alloc; "{}\n{told}", end.status)?;
        let mut possible = 0u32;
        for at in 0..end.journal.len().saturating_sub(1) {
            if end.journal[at].task == end.journal[at + 1].task {
                continue;
            }
            let text = exchanged(alloc, module, end.journal.as_slice(), at)?;
            let other = answer(&rt, alloc, replays.as_slice(), text.as_slice())?;
            if other == owed {
                possible = possible.saturating_add(1);
            } else {
                assert!(rt;
                    other.as_str().starts_with("11\nrefused: entry "),
                    "{other}"
                );
            }
        }
        assert!(rt; possible > 0, "{module}");
    }
    Ok(())
}
