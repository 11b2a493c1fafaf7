//! What actions touch.
ghost use Rattle.std.specs.Prelude.{◌≡◌, ◌∷◌, IfOk};
ghost use Rattle.race_order.specs.Touch as spec;
ghost use Rattle.race_order.specs.Keys.{made_key as made_key_of};
ghost use Rattle.race_order.specs.Touch.{touch_of, touch_in, alike};

use crate::keys::made_key;
use ir_forms::{Action, MadeName};
use std::alloc::{AllocError, Global};

/// A cell or group that an action touches, by its key, and whether the action writes or uses its rank.
#[derive(Drop)]
pub(crate) struct Touch {
    pub key: Vec<usize>,
    pub heavy: bool,
}

/// A touch of a cell.
fn cell(alloc: Global, buffer: &MadeName, number: u32, heavy: bool) -> Result<Touch, AllocError>
    ensures { IfOk result (λ touch. touch_of touch ≡ (0 ∷ number ∷ made_key_of buffer.now, heavy)) }
{
    let mut key = Vec::new(alloc);
    key.push(0)?;
    key.push(number as usize)?;
    let mut made = made_key(alloc, buffer)?;
    key.append(&mut made)?;
    Ok(Touch { key, heavy })
}

/// A touch of a group.
fn group(alloc: Global, name: &MadeName, heavy: bool) -> Result<Touch, AllocError>
    ensures { IfOk result (λ touch. touch_of touch ≡ (1 ∷ made_key_of name.now, heavy)) }
{
    let mut key = Vec::new(alloc);
    key.push(1)?;
    let mut made = made_key(alloc, name)?;
    key.append(&mut made)?;
    Ok(Touch { key, heavy })
}

/// What an action touches.
pub(crate) fn touched(alloc: Global, action: &Action) -> Result<Option<Touch>, AllocError>
    ensures { IfOk result (λ touch. touch_in touch ≡ spec.touched action.now) }
{
    match action {
        Action::Read(buffer, number) => {
            let touch = cell(alloc, buffer, *number, false)?;
            Ok(Some(touch))
        }
        Action::Write(buffer, number) => {
            let touch = cell(alloc, buffer, *number, true)?;
            Ok(Some(touch))
        }
        Action::Add(name, _, used) => {
            let touch = group(alloc, name, *used)?;
            Ok(Some(touch))
        }
        Action::Alloc(_)
        | Action::Create(_)
        | Action::Launch(_)
        | Action::Enter(_, _)
        | Action::JoinAll
        | Action::Await(_)
        | Action::AwaitAll(_)
        | Action::End(_) => Ok(None),
    }
}

/// Whether a touch is in conflict with a later one.
pub(crate) fn are_alike(earlier: &Option<Touch>, later: &Touch) -> bool
    ensures { result ≡ alike (touch_in earlier.now) (touch_of later.now) }
{
    match earlier {
        None => false,
        Some(touch) => touch.key.as_slice() == later.key.as_slice() && (touch.heavy || later.heavy),
    }
}
