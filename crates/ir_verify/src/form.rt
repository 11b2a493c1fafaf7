//! The forms of operations, and what ends their regions.
ghost use Rattle.std.specs.Prelude.{◌≡◌};
ghost use Rattle.ir_verify.specs.Forms.{end_asked, ends, form, is_ending};

use ir_forms::Op;
use op_table::Form;

/// The form of an operation.
pub(crate) fn form_of(op: &Op) -> Form
    ensures { result ≡ form op.now }
{
    op.kind.form()
}

/// What ends the region with this place in an operation of the form.
pub(crate) fn end_asked(form: Form, region: usize) -> Form
    ensures { result ≡ end_asked form region }
{
    match form {
        Form::For | Form::If => Form::Yield,
        Form::While if region == 0 => Form::Condition,
        Form::While => Form::Yield,
        Form::Parallel => Form::Reduce,
        Form::Execute => Form::TaskYield,
        _ => Form::Other,
    }
}

/// Whether the other form is the one that is asked, and ends a region.
pub(crate) fn ends(asked: Form, other: Form) -> bool
    ensures { result ≡ ends asked other }
{
    match asked {
        Form::Return => matches!(other, Form::Return),
        Form::Yield => matches!(other, Form::Yield),
        Form::Condition => matches!(other, Form::Condition),
        Form::Reduce => matches!(other, Form::Reduce),
        Form::TaskYield => matches!(other, Form::TaskYield),
        _ => false,
    }
}

pub(crate) fn is_ending(form: Form) -> bool
    ensures { result ≡ is_ending form }
{
    matches!(
        form,
        Form::Return | Form::Yield | Form::Condition | Form::Reduce | Form::TaskYield
    )
}
