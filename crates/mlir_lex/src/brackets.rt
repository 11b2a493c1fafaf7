//! The brackets `<` and `>` of memrefs.

ghost use Rattle.std.specs.Prelude.{◌≡◌, ◌<◌, ◌≤◌, ◌^◌, length, drop, IfOk, IfSome};
ghost use Rattle.mlir_lex.specs.Scan as spec;

use std::alloc::{AllocError, Global};

/// For each byte, whether a `<` there would have its matching `>`.
///
/// One pass from the end finds them all, so that no `memref<` without a match is looked through to the end.
pub fn closed_at(alloc: Global, text: &[u8]) -> Result<Vec<bool>, AllocError>
    ensures { IfOk result (λ v. v.items ≡ spec.closed_at text.now) }
{
    let mut closed = vec![in alloc; false; text.len()]?;
    let mut spare: usize = 0;
    let mut at = text.len();
    while at > 0 {
        at -= 1;
        closed[at] = spare > 0;
        match text[at] {
            b'>' => spare += 1,
            b'<' => spare = spare.saturating_sub(1),
            _ => {}
        }
    }
    Ok(closed)
}

/// The place after the `>` that matches a `<` just before `from`.
fn bracket_end(text: &[u8], from: usize) -> Option<usize>
    requires { from ≤ length text.now }
    ensures value { result ≡ spec.bracket_end (drop from text.now) 0 from }
    ensures within { IfSome result (λ end. (from < end) × (end ≤ length text.now)) }
{
    let mut inner: usize = 0;
    for at in from..text.len() {
        match text[at] {
            b'>' if inner == 0 => return Some(at + 1),
            b'>' => inner -= 1,
            b'<' => inner += 1,
            _ => {}
        }
    }
    None
}

/// The length of the memref at the front.
pub fn memref_len(text: &[u8], closed: &[bool]) -> Option<usize>
    requires { closed.now ≡ spec.closed_at text.now }
    ensures value { result ≡ spec.memref_len text.now }
    ensures within { IfSome result (λ end. (7 < end) × (end ≤ length text.now)) }
{
    if text.starts_with(b"memref<") && closed[6] {
        bracket_end(text, 7)
    } else {
        None
    }
}
