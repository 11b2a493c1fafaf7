//! The text of journals.
use run_journal::{Entry, JournalFault, journal_text, push_journal, read_journal};
use std::alloc::{AllocError, Global};
use std::test::Fail;

#[test]
fn writes_and_reads_entries(rt: HostRuntime) -> Result<(), Fail> {
    let alloc = rt.alloc();
    let entries = [
        Entry { task: 0, local: 0 },
        Entry { task: 1, local: 0 },
        Entry {
            task: 4_294_967_295,
            local: 4096,
        },
    ];
    let lines = "0 0\n1 0\n4294967295 4096\n";
    assert_eq!(rt; journal_text(alloc, &entries)?.as_str(), lines);
    let read = read_journal(alloc, lines.as_bytes())?;
    assert!(rt; read.as_slice() == entries.as_slice());
    let mut text = b"0 0\n".to_vec(alloc)?;
    push_journal(&mut text, &entries[1..])?;
    assert_eq!(rt; text.as_slice(), lines.as_bytes());
    Ok(())
}

// The first line of the journal that is no entry, 0 where each is one.
fn bad_line(alloc: Global, text: &[u8]) -> Result<u32, AllocError> {
    match read_journal(alloc, text) {
        Ok(_) => Ok(0),
        Err(JournalFault::BadLine { line }) => Ok(line),
        Err(JournalFault::OutOfMemory) => Err(AllocError),
    }
}

/// Texts, and the number of the first line that is no entry, 0 where each is one.
const TEXTS: [(&str, u32); 13] = [
    ("", 0),
    ("0 x\n", 1),
    ("0 0\n00 1\n", 2),
    ("0 0\n\n0 0\n", 2),
    ("0 0\n1 0", 2),
    ("4294967296 0\n", 1),
    ("0 0\n0 4294967296\n", 2),
    ("0  0\n", 1),
    (" 0 0\n", 1),
    ("0 0 \n", 1),
    ("+1 0\n", 1),
    ("0 0\r\n", 1),
    ("0\n", 1),
];

#[test]
fn names_the_first_bad_line(rt: HostRuntime) -> Result<(), Fail> {
    for (text, line) in TEXTS {
        assert_eq!(rt; bad_line(rt.alloc(), text.as_bytes())?, line, "at {text}");
    }
    let mut text = Vec::new(rt.alloc());
    for _line in 0..100_000 {
        text.extend_from_slice(b"nonsense \n")?;
    }
    assert_eq!(rt; bad_line(rt.alloc(), text.as_slice())?, 1);
    Ok(())
}
