//! `run`: its answers, the journal that it gives, and words and bytes that are no plain text.
use crate::harness::{answer, assert_cases, shown, words_of};
use aio_base::{MemSink, MemSource, OpenGate};
use async_cli::{run, tool};
use std::test::Fail;
use step_core::Entry;

const RUNS: &str = r#"
$ run
func.func @main() -> i64 { %a = arith.constant 40 : i64 %b = arith.constant 2 : i64 %c = arith.addi %a, %b : i64 return %c : i64 }
= 0
result 0: 42
tasks 0, objects 0

$ run --steps
func.func @main() -> i64 { %a = arith.constant 40 : i64 %b = arith.constant 2 : i64 %c = arith.addi %a, %b : i64 return %c : i64 }
= 0
result 0: 42
tasks 0, objects 0
steps 4, entries 1

$ run --steps
func.func @main() -> i64 {
  %a = arith.constant 40 : i64
  %b = arith.constant 2 : i64
  %c = arith.addi %a, %b : i64
  %d = arith.addi %c, %c : i64 // 84
  return %d : i64
}
= 0
result 0: 84
tasks 0, objects 0
steps 5, entries 1

$ run --journal
func.func @main() { %t = async.execute { async.yield } return }
= 0
tasks 1, objects 1
-- journal
0 1
0 3
0 4
1 1
1 3

$ run --journal
func.func @main() { %t = async.execute { async.yield } async.await %t : !async.token return }
= 0
tasks 1, objects 1
-- journal
0 1
0 3
0 3
1 1
1 3
0 0
0 2

$ check --journal
func.func @main() { return }
= 0
ok: 1 functions, 2 operations

$ run --entry=f --steps
func.func @main() { return } func.func @f() { return }
= 0
tasks 0, objects 0
steps 1, entries 1
"#;

const REFUSALS: &str = r#"
$ run
= 3
refused: no entry main

$ run
func.func @other() { return }
= 3
refused: no entry main

$ run
func.func @main() -> i64 { }
= 3
refused: Terminator at operation 1

$ run
func.func @main() { return
= 3
refused: Syntax at byte 26

$ run
func.func @main(%t: !async.token) { return }
= 3
refused: entry type at operation 1

$ run
func.func @main(%a: i64) { return }
= 3
refused: argument 0

$ run --fuel=16777216 --entry=f
func.func @main() -> i64 { } func.func @f() { return }
= 3
refused: Terminator at operation 1

$ run --args=1
func.func @main() { return }
= 3
refused: argument 0

$ run --args=7,2 --entry=q
func.func @q(%a: i64, %b: i1) { return }
= 3
refused: argument 1

$ run --steps --steps
func.func @main() { return }
= 2
refused: words

$ run --fuel=16777217
func.func @main() { return }
= 2
refused: words

$ run --fuel=0
func.func @main() { return }
= 2
refused: words

$ check --args=[2:1
func.func @main() { return }
= 2
refused: words

$ replay --print
func.func @main() { return }
= 3
refused: journal line 0

$ compile --print=
func.func @main() { return }
= 2
refused: words

$ 
func.func @main() { return }
= 2
refused: words
"#;

#[test]
fn answers_runs_and_refusals(rt: HostRuntime) -> Result<(), Fail> {
    assert_cases(&rt, rt.alloc(), RUNS)?;
    assert_cases(&rt, rt.alloc(), REFUSALS)
}

#[test]
fn answers_words_with_blanks_and_bytes_that_are_no_text(rt: HostRuntime) -> Result<(), Fail> {
    let rows: [(&str, &[u8], &str); 4] = [
        ("--entry=no such", b"", "3\nrefused: no entry no such\n"),
        ("--steps", b"\xff", "3\nrefused: BadUtf8 at byte 0\n"),
        (
            "--steps",
            b"func.func @main() {\r\n\treturn\r}",
            "0\ntasks 0, objects 0\nsteps 1, entries 1\n",
        ),
        ("-- steps", b"", "2\nrefused: words\n"),
    ];
    for (word, bytes, owed) in rows {
        let mut words = words_of(rt.alloc(), "run")?;
        words.push(String::from_str(rt.alloc(), word)?)?;
        let told = answer(&rt, rt.alloc(), words.as_slice(), bytes)?;
        assert_eq!(rt; told.as_str(), owed);
    }
    Ok(())
}

#[test]
fn leaves_run_to_run(rt: HostRuntime) -> Result<(), Fail> {
    let words = words_of(rt.alloc(), "run")?;
    let mut source = MemSource::new(Vec::new(rt.alloc()), Vec::new(rt.alloc()));
    let mut sink = MemSink::new(rt.alloc(), 4096, 4096, Vec::new(rt.alloc()))?;
    let status = tool(rt.alloc(), words.as_slice(), &mut source, &mut sink);
    let told = shown(rt.alloc(), status, sink.taken())?;
    assert_eq!(rt; told.as_str(), "2\nrefused: words\n");
    Ok(())
}

#[test]
fn gives_the_journal(rt: HostRuntime) -> Result<(), Fail> {
    let text: &[u8] =
        b"func.func @main() -> i64 { %a = arith.constant 40 : i64 %b = arith.addi %a, %a : i64 return %b : i64 }";
    let words = words_of(rt.alloc(), "run")?;
    let mut source = MemSource::new(text.to_vec(rt.alloc())?, Vec::new(rt.alloc()));
    let mut sink = MemSink::new(rt.alloc(), 4096, 4096, Vec::new(rt.alloc()))?;
    let end = run(
        &rt,
        rt.alloc(),
        words.as_slice(),
        &mut source,
        &mut sink,
        &OpenGate,
    );
    assert_eq!(rt; (end.status, end.stop), (0, None));
    assert!(rt; end.journal.as_slice() == [Entry { task: 0, local: 2 }].as_slice());
    Ok(())
}
