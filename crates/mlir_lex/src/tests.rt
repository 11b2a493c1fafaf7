//! Texts with their tokens, as the rules of tokens say them.

use crate::kinds::TokenKind::{
    Arrow, BangName, BlockName, Byte, Digits, End, HashName, Hex, Memref, Name, SymbolName,
    SymbolText, Text, ValueName,
};
use crate::kinds::{LexFault, Token, TokenKind};
use crate::tokens;
use std::alloc::{AllocError, Global};
use std::process::Abort;
use std::test::Fail;

/// A text, and the kinds and spans of its tokens but the last.
type Reading = (&'static [u8], &'static [(TokenKind, u32, u32)]);

const READINGS: [Reading; 46] = [
    (b"", &[]),
    (b" \t\r\n", &[]),
    (b"a", &[(Name, 0, 1)]),
    (b"_a$.9-", &[(Name, 0, 5), (Byte(b'-'), 5, 6)]),
    (b"arith.constant true", &[(Name, 0, 14), (Name, 15, 19)]),
    (b"%0 %a-b", &[(ValueName, 0, 2), (ValueName, 3, 7)]),
    (b"^bb0(", &[(BlockName, 0, 4), (Byte(b'('), 4, 5)]),
    (b"@main @7", &[(SymbolName, 0, 5), (SymbolName, 6, 8)]),
    (b"#map #0", &[(HashName, 0, 4), (HashName, 5, 7)]),
    (b"@\"x y\"", &[(SymbolText, 0, 6)]),
    (b"\"a\"\"b\"", &[(Text, 0, 3), (Text, 3, 6)]),
    (b"\"\\\"\\\\\\n\\t\\4F\\ff\"", &[(Text, 0, 16)]),
    (b"\"\xC3\xA9\r\" // \xE2\x82\xAC", &[(Text, 0, 5)]),
    (b"\"//\"", &[(Text, 0, 4)]),
    (b"17 0", &[(Digits, 0, 2), (Digits, 3, 4)]),
    (b"0x1Fg", &[(Hex, 0, 4), (Name, 4, 5)]),
    (b"0x", &[(Digits, 0, 1), (Name, 1, 2)]),
    (b"0xg", &[(Digits, 0, 1), (Name, 1, 3)]),
    (b"00x1", &[(Digits, 0, 2), (Name, 2, 4)]),
    (b"0X1", &[(Digits, 0, 1), (Name, 1, 3)]),
    (
        b"1.5",
        &[(Digits, 0, 1), (Byte(b'.'), 1, 2), (Digits, 2, 3)],
    ),
    (b"1.x", &[(Digits, 0, 1), (Byte(b'.'), 1, 2), (Name, 2, 3)]),
    (b"a.1", &[(Name, 0, 3)]),
    (b"memref<4x?xi64>", &[(Memref, 0, 15)]),
    (b"memref<a<b>c>d", &[(Memref, 0, 13), (Name, 13, 14)]),
    (b"memref<memref<i1>>", &[(Memref, 0, 18)]),
    (
        b"memref<\"a\n//]{->>",
        &[(Memref, 0, 16), (Byte(b'>'), 16, 17)],
    ),
    (
        b"memref<i1",
        &[(Name, 0, 6), (Byte(b'<'), 6, 7), (Name, 7, 9)],
    ),
    (
        b"memref<memref<i1>",
        &[(Name, 0, 6), (Byte(b'<'), 6, 7), (Memref, 7, 17)],
    ),
    (
        b"memref <i1>",
        &[
            (Name, 0, 6),
            (Byte(b'<'), 7, 8),
            (Name, 8, 10),
            (Byte(b'>'), 10, 11),
        ],
    ),
    (b"memref.load", &[(Name, 0, 11)]),
    (
        b"memrefs<i1>",
        &[
            (Name, 0, 7),
            (Byte(b'<'), 7, 8),
            (Name, 8, 10),
            (Byte(b'>'), 10, 11),
        ],
    ),
    (b"!memref<", &[(BangName, 0, 7), (Byte(b'<'), 7, 8)]),
    (b"!async.token", &[(BangName, 0, 12)]),
    (
        b"!async.value<i1>",
        &[
            (BangName, 0, 12),
            (Byte(b'<'), 12, 13),
            (Name, 13, 15),
            (Byte(b'>'), 15, 16),
        ],
    ),
    (b"->", &[(Arrow, 0, 2)]),
    (b"-->", &[(Byte(b'-'), 0, 1), (Arrow, 1, 3)]),
    (b"- >", &[(Byte(b'-'), 0, 1), (Byte(b'>'), 2, 3)]),
    (b"-5", &[(Byte(b'-'), 0, 1), (Digits, 1, 2)]),
    (b"%a->", &[(ValueName, 0, 3), (Byte(b'>'), 3, 4)]),
    (
        b"%a#0->",
        &[(ValueName, 0, 2), (HashName, 2, 5), (Byte(b'>'), 5, 6)],
    ),
    (
        b"(){}[]<>,:=-*",
        &[
            (Byte(b'('), 0, 1),
            (Byte(b')'), 1, 2),
            (Byte(b'{'), 2, 3),
            (Byte(b'}'), 3, 4),
            (Byte(b'['), 4, 5),
            (Byte(b']'), 5, 6),
            (Byte(b'<'), 6, 7),
            (Byte(b'>'), 7, 8),
            (Byte(b','), 8, 9),
            (Byte(b':'), 9, 10),
            (Byte(b'='), 10, 11),
            (Byte(b'-'), 11, 12),
            (Byte(b'*'), 12, 13),
        ],
    ),
    (b"a//b\nc", &[(Name, 0, 1), (Name, 5, 6)]),
    (b"a//b\rc", &[(Name, 0, 1)]),
    (b"// \"\n//\nx", &[(Name, 8, 9)]),
    (b"1//\n5", &[(Digits, 0, 1), (Digits, 4, 5)]),
];

/// Texts that have no tokens, and why.
const REFUSALS: [(&[u8], LexFault); 33] = [
    (b"\xFF", LexFault::BadUtf8 { at: 0 }),
    (b"a \"\n\xC3", LexFault::BadUtf8 { at: 4 }),
    (b"?\xE2\x82\xAC\xE2\x82", LexFault::BadUtf8 { at: 4 }),
    (b"\"\xED\xA0\x80\"", LexFault::BadUtf8 { at: 1 }),
    (b"\"\xC0\x80\"", LexFault::BadUtf8 { at: 1 }),
    (b"\"\xF4\x90\x80\x80\"", LexFault::BadUtf8 { at: 1 }),
    (b"\xC3\xA9", LexFault::BadByte { at: 0 }),
    (b"a\xC3\xA9", LexFault::BadByte { at: 1 }),
    (b"\"", LexFault::OpenString { at: 0 }),
    (b"a \"b\n\"", LexFault::OpenString { at: 2 }),
    (b"\"a\\\"", LexFault::OpenString { at: 0 }),
    (b"\"a\\\nb\"", LexFault::OpenString { at: 0 }),
    (b"\"\\q", LexFault::OpenString { at: 0 }),
    (b"\"a\\q\"", LexFault::BadByte { at: 0 }),
    (b"\"\\4\"", LexFault::BadByte { at: 0 }),
    (b"\"\\4g\"", LexFault::BadByte { at: 0 }),
    (b"\"\\N\" \"", LexFault::BadByte { at: 0 }),
    (b"? \"", LexFault::BadByte { at: 0 }),
    (b"\"\" \" ?", LexFault::OpenString { at: 3 }),
    (b"@\"abc", LexFault::BadByte { at: 0 }),
    (b"@\"\\q\"", LexFault::BadByte { at: 0 }),
    (b"@ \"x\"", LexFault::BadByte { at: 0 }),
    (b"@", LexFault::BadByte { at: 0 }),
    (b"! async", LexFault::BadByte { at: 0 }),
    (b"!1", LexFault::BadByte { at: 0 }),
    (b"% a", LexFault::BadByte { at: 0 }),
    (b"a /", LexFault::BadByte { at: 2 }),
    (b".a", LexFault::BadByte { at: 0 }),
    (b"1 .", LexFault::BadByte { at: 2 }),
    (b"1..", LexFault::BadByte { at: 2 }),
    (b"0x1F.", LexFault::BadByte { at: 4 }),
    (b"1//\n.", LexFault::BadByte { at: 4 }),
    (b"memref<?", LexFault::BadByte { at: 7 }),
];

const PAGE: &[u8] = b"// A sum by tasks.
func.func private @sum(%m : memref<?xi64>, %n : index) -> i64 attributes {aio.at = 7 : i64} {
  %c0 = arith.constant 0 : index
  %least = arith.constant -0x8000000000000000 : i64
  %g = async.create_group %n : !async.group
  %t, %v = async.execute [%c0#0] (%m as %u : !async.value<memref<2x3xi64>>) -> !async.value<i64> {
    cf.assert %b, \"index \\\"out\\\" of \\4Frange\"
    async.yield %x : i64 // the value
  } loc(\"a.mlir\":1:2.5)
  cf.br ^bb1(%v : !async.value<i64>)
^bb1(%p : i64):
  func.call @\"other name\"(%p) {a = [1, 2], b = *} : (i64) -> ()
  return %p : i64
}
";

const MEBIBYTE: usize = 1 << 20;

/// `tokens` of a text that is short enough, as each of these is.
fn read(rt: &impl Abort, alloc: Global, text: &[u8]) -> Result<Vec<Token>, LexFault> {
    assert!(rt; text.len() <= MEBIBYTE);
    tokens(alloc, text)
}

fn assert_reading(
    rt: &impl Abort,
    alloc: Global,
    text: &[u8],
    wanted: &[(TokenKind, u32, u32)],
) -> Result<(), Fail> {
    let found = read(rt, alloc, text)?;
    assert_eq!(rt; found.len(), wanted.len() + 1, "{text:?}");
    for ((kind, start, end), token) in wanted.iter().zip(found.iter()) {
        assert_eq!(rt; *kind, token.kind, "{text:?}");
        assert_eq!(rt; *start, token.start, "{text:?}");
        assert_eq!(rt; *end, token.end, "{text:?}");
    }
    assert_ends(rt, &found, text.len());
    Ok(())
}

/// The last token is the end, at the length.
fn assert_ends(rt: &impl Abort, found: &[Token], len: usize) {
    let last = found.last().copied();
    let wanted = u32::try_from(len).ok().map(|end| Token {
        kind: End,
        start: end,
        end,
    });
    assert_eq!(rt; last, wanted);
}

#[test]
fn reads_each_kind(rt: HostRuntime) -> Result<(), Fail> {
    for (text, wanted) in READINGS {
        assert_reading(&rt, rt.alloc(), text, wanted)?;
    }
    Ok(())
}

#[test]
fn refuses_at_the_first_fault(rt: HostRuntime) {
    for (text, wanted) in REFUSALS {
        let fault = read(&rt, rt.alloc(), text).err();
        assert_eq!(rt; fault, Some(wanted), "{text:?}");
    }
}

/// What one byte alone is, by lists of bytes.
fn kind_alone(byte: u8) -> Result<Option<TokenKind>, LexFault> {
    const WORD: &[u8] = b"ABCDEFGHIJKLMNOPQRSTUVWXYZ_abcdefghijklmnopqrstuvwxyz";
    if byte > 127 {
        return Err(LexFault::BadUtf8 { at: 0 });
    }
    if b" \t\r\n".contains(&byte) {
        return Ok(None);
    }
    if WORD.contains(&byte) {
        return Ok(Some(Name));
    }
    if b"0123456789".contains(&byte) {
        return Ok(Some(Digits));
    }
    if b"(){}[]<>,:=-*".contains(&byte) {
        return Ok(Some(Byte(byte)));
    }
    if byte == b'"' {
        return Err(LexFault::OpenString { at: 0 });
    }
    Err(LexFault::BadByte { at: 0 })
}

#[test]
fn reads_each_byte(rt: HostRuntime) -> Result<(), Fail> {
    for byte in 0..=255 {
        match kind_alone(byte) {
            Ok(None) => assert_reading(&rt, rt.alloc(), &[byte], &[])?,
            Ok(Some(kind)) => assert_reading(&rt, rt.alloc(), &[byte], &[(kind, 0, 1)])?,
            Err(wanted) => assert_eq!(rt;
                read(&rt, rt.alloc(), &[byte]).err(),
                Some(wanted),
                "{byte}"
            ),
        }
    }
    Ok(())
}

/// A front of the page reads, or ends within a string, behind the sign of a name, or within a
/// memref, whose `?` is no token then.
#[test]
fn reads_each_front_of_a_page(rt: HostRuntime) -> Result<(), Fail> {
    for len in 0..=PAGE.len() {
        match read(&rt, rt.alloc(), &PAGE[..len]) {
            Ok(found) => assert_ends(&rt, &found, len),
            Err(LexFault::OpenString { at }) => assert_eq!(rt;
                PAGE.get(at as usize),
                Some(&b'"'),
                "{len}"
            ),
            Err(LexFault::BadByte { at }) => {
                let byte = PAGE.get(at as usize).copied().unwrap_or(0);
                let is_cut_off = at as usize + 1 == len
                    || (byte == b'@' && PAGE.get(at as usize + 1) == Some(&b'"'));
                assert!(rt; byte == b'?' || is_cut_off, "{len}: {at}");
            }
            Err(fault) => assert!(rt; false, "{len}: {fault:?}"),
        }
    }
    let whole = read(&rt, rt.alloc(), PAGE)?;
    assert_eq!(rt; whole.len(), 134);
    Ok(())
}

/// A pattern over and over, cut at 1,048,576 bytes.
fn repeated(alloc: Global, pattern: &[u8]) -> Result<Vec<u8>, AllocError> {
    let mut text = Vec::with_capacity(alloc, MEBIBYTE)?;
    let len = pattern.len().max(1);
    for at in 0..MEBIBYTE {
        text.push(pattern.get(at % len).copied().unwrap_or(b' '))?;
    }
    Ok(text)
}

#[test]
fn reads_a_mebibyte(rt: HostRuntime) -> Result<(), Fail> {
    let patterns: [(&[u8], usize); 8] = [
        (b"abcdefg ", 131_073),
        (b"a ", 524_289),
        (b"<", 1_048_577),
        (b">", 1_048_577),
        (b"\"\"", 524_289),
        (b"// a comment \\ \"", 1),
        // 149,796 times `memref` and `<`, and `memr`
        (b"memref<", 299_594),
        // 131,072 memrefs
        (b"memref<>", 131_073),
    ];
    for (pattern, wanted) in patterns {
        let text = repeated(rt.alloc(), pattern)?;
        let found = read(&rt, rt.alloc(), &text)?;
        assert_eq!(rt; found.len(), wanted, "{pattern:?}");
        assert_ends(&rt, &found, MEBIBYTE);
    }
    Ok(())
}
