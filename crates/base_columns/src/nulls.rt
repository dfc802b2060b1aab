//! Which values of a column are null.
ghost use Rattle.std.specs.Prelude.{◌≡◌, ◌<◌, length, slice_index_or};
ghost use Rattle.base_value.specs.declared.value.Value.TheVariants.{Null};
ghost use Rattle.base_columns.specs.Forms.{is_null};
ghost use Rattle.base_columns.specs.Shown.{shown};

use crate::column::Column;
use crate::form::Form;
use crate::marked_form::MarkedForm;
use base_value::Value;

impl Column {
    /// Whether the value at a place is null.
    pub fn is_null(&self, i: usize) -> bool
        requires { i < length self.now }
        ensures { result ≡ is_null (slice_index_or self.now i Null) }
    {
        self.values().is_null(i)
    }
}

#[tactic(auto, using(crate::proofs::MarkedColumns::columns, crate::proofs::NullLists::marks))]
impl MarkedForm {
    // Whether the value at a place is null.
    fn is_null(&self, i: usize) -> bool
        requires { i < length self.now }
        ensures { result ≡ is_null (slice_index_or self.now i Null) }
    {
        if self.marks.has(i) {
            return true;
        }
        has_null(&self.form, i)
    }
}

// Whether a form's value at a place is null.
#[tactic(auto, using(crate::proofs::NullLists::forms))]
fn has_null(form: &Form, i: usize) -> bool
    requires { i < length (shown form.now) }
    ensures { result ≡ is_null (slice_index_or (shown form.now) i Null) }
{
    match form {
        Form::Values(values) => matches!(&values[i], Value::Null),
        Form::Numbers(_, _) | Form::Dates(_) | Form::Texts(_) | Form::Coded(_) => false,
    }
}
