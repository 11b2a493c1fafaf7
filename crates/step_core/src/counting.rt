//! What steps that count references do to objects.
ghost use Rattle.std.specs.Prelude.{◌≡◌, ◌<◌, ◌++◌, ◌∷◌, [], true};
ghost use Rattle.std.specs.Bool.{OnTrue};
ghost use Rattle.async_objects.specs.Objects.{object_at};
ghost use Rattle.async_objects.specs.Counts.{freed, IsThere};
ghost use Rattle.async_objects.specs.Tables.{changed_to};
ghost use Rattle.step_core.specs.Core.{own_count};
ghost use Rattle.step_core.specs.Counting.{may_count, Fits64};
ghost use Rattle.step_core.specs.Plain.{counting_change};

use async_objects::{Dropped, FreedList, Kind, Objects, State};
use ir_forms::ObjNo;
use task_stack::CountStep;

/// How many references an object keeps itself.
fn own_count(objects: &Objects, o: ObjNo) -> u64
    requires { IsThere objects.now.counts o }
    ensures { result ≡ own_count (object_at objects.now.objects o) }
{
    match objects.kind(o) {
        Kind::Group { .. } => objects.pending(o),
        Kind::Token | Kind::Value => match objects.state(o) {
            State::Unset => 1,
            State::Available | State::Error => 0,
        },
    }
}

/// Whether the object is there, and a drop leaves what the object keeps itself.
pub(crate) fn may_count(objects: &Objects, count: CountStep) -> bool
    ensures { result ≡ may_count count objects.now }
{
    let CountStep { object, adds, n } = count;
    if !objects.is_there(object) {
        return false;
    }
    if adds {
        return true;
    }
    let all = objects.count(object);
    n <= all && own_count(objects, object) <= all - n
}

/// Whether the count stays below 2^64.
pub(crate) fn fits(objects: &Objects, count: CountStep) -> bool
    ensures { OnTrue result (Fits64 count objects.now) }
{
    !count.adds || count.n <= u64::MAX - objects.count(count.object)
}

/// Counts references. An object that has none left is taken out, and listed.
pub(crate) fn change_count(objects: &mut Objects, gone: &mut FreedList, count: CountStep)
    requires may { may_count count objects.old ≡ true }
    requires fits { Fits64 count objects.old }
    requires room { 0 < gone.old.room }
    ensures objects { objects.new ≡ changed_to objects.old.objects (counting_change count ∷ []) objects.old }
    ensures gone { gone.new.items ≡ gone.old.items ++ freed (counting_change count ∷ []) objects.old.counts }
{
    let CountStep { object, adds, n } = count;
    if adds {
        objects.add_ref(object, n);
    } else if n > 0 {
        match objects.drop_ref(object, n) {
            Dropped::Last => gone.push(object),
            Dropped::Left => {}
        }
    }
}
