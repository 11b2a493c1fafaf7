//! `replay`: finished and unfinished journals, those that are no run, and where the heading stands.
use crate::harness::{answer, assert_cases, words_of};
use std::test::Fail;

const FINISHED: &str = r#"
$ replay
func.func @main() { %t = async.execute { async.yield } return }
-- journal
0 1
0 3
0 4
1 1
1 3

= 0
tasks 1, objects 1

$ replay
func.func @main() { %t = async.execute { async.yield } return }
-- journal
0 1
0 3
1 1
0 4
1 3

= 0
tasks 1, objects 1

$ replay --journal
func.func @main() { %t = async.execute { async.yield } async.await %t : !async.token return }
-- journal
0 1
0 3
0 3
1 1
1 3
0 0
0 2

= 0
tasks 1, objects 1
-- journal
0 1
0 3
0 3
1 1
1 3
0 0
0 2

$ replay --steps
func.func @main() -> i64 { %t, %v = async.execute -> !async.value<i64> { %c = arith.constant 7 : i64 async.yield %c : i64 } %r = async.await %v : !async.value<i64> return %r : i64 }
-- journal
0 1
0 0
0 3
0 4
1 2
1 0
1 0
1 3
0 0
0 1
0 1

= 0
result 0: 7
tasks 1, objects 2
steps 26, entries 11

$ replay
func.func @main(%c: i1) { cf.assert %c, "no" return }
-- journal
0 1

= 3
refused: argument 0

$ replay --args=false
func.func @main(%c: i1) { cf.assert %c, "no" return }
-- journal
0 2

= 1
failed at operation 2: no
tasks 0, objects 0

$ replay --journal --steps
func.func @main() -> i64 { %a = arith.constant 42 : i64 return %a : i64 }
-- journal
0 1

= 0
result 0: 42
tasks 0, objects 0
steps 2, entries 1
-- journal
0 1
"#;

const NO_FINISHED_RUN: &str = r#"
$ replay
func.func @main() { %t = async.execute { async.yield } return }
-- journal
1 0

= 11
refused: entry 0 names task 1, which is not there

$ replay
func.func @main() { %t = async.execute { async.yield } async.await %t : !async.token return }
-- journal
0 1
0 3
0 3
0 0

= 11
refused: entry 3 names task 0, which is parked

$ replay
func.func @main() -> i64 { %a = arith.constant 42 : i64 return %a : i64 }
-- journal
0 2

= 11
refused: entry 0 names task 0, which has 1 local steps

$ replay
func.func @main() { %t = async.execute { async.yield } return }
-- journal
0 1
0 3
0 4
1 1
1 3
1 0

= 11
refused: entry 5 names task 1, which is not there

$ replay
func.func @main() { func.call @main() : () -> () return }
-- journal
0 1023

= 11
refused: entry 0 names task 0, which cannot take its step

$ replay
func.func @main() { func.call @main() : () -> () return }
-- journal
0 1022

= 11
refused: entry 0 names task 0, which has 1023 local steps

$ replay
func.func @main() { %z = arith.constant 0 : index scf.parallel (%i) = (%z) to (%z) step (%z) { } return }
-- journal
x

= 3
refused: journal line 1

$ replay
func.func @main() { %t = async.execute { async.yield } return }
-- journal
0 1
0 3

= 6
stopped: unfinished after 2 entries

$ replay
func.func @main() { return }
-- journal

= 6
stopped: unfinished after 0 entries

$ replay
func.func @main() { return }
-- journal
= 6
stopped: unfinished after 0 entries

$ replay
func.func @main() { return }
= 3
refused: journal line 0

$ replay
func.func @main() { return }
-- journal
0 x

= 3
refused: journal line 1

$ replay
func.func @main() { return }
-- journal
0 00

= 3
refused: journal line 1

$ replay
func.func @main() { %t = async.execute { async.yield } return }
-- journal
0 0
0 0
= 3
refused: journal line 2

$ replay
func.func @main() { %t = async.execute { async.yield } return }
-- journal
0 0

1 0

= 3
refused: journal line 2

$ replay
func.func @main() { return }
-- journal
0 0
-- journal

= 3
refused: journal line 2

$ replay
-- journal
0 0

= 3
refused: no entry main

$ replay
-- journal
= 3
refused: no entry main

$ replay
nonsense
-- journal
x

= 3
refused: Syntax at byte 0
"#;

#[test]
fn replays_journals(rt: HostRuntime) -> Result<(), Fail> {
    assert_cases(&rt, rt.alloc(), FINISHED)?;
    assert_cases(&rt, rt.alloc(), NO_FINISHED_RUN)
}

#[test]
fn knows_the_heading_by_its_bytes(rt: HostRuntime) -> Result<(), Fail> {
    let words = words_of(rt.alloc(), "replay")?;
    let rows: [(&[u8], &str); 3] = [
        (
            b"func.func @main() { return }\n-- journal\r\n0 0\n",
            "3\nrefused: Syntax at byte 29\n",
        ),
        (
            b"func.func @main() { return }\n -- journal\n0 0\n",
            "3\nrefused: Syntax at byte 30\n",
        ),
        (
            b"func.func @main() { return } // -- journal\n0 0\n",
            "3\nrefused: Syntax at byte 43\n",
        ),
    ];
    for (bytes, owed) in rows {
        let told = answer(&rt, rt.alloc(), words.as_slice(), bytes)?;
        assert_eq!(rt; told.as_str(), owed);
    }
    Ok(())
}
