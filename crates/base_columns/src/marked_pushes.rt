//! Values put at the end of marked ones.
ghost use Rattle.std.specs.Prelude.{◌≡◌, ◌≤◌, ◌++◌, ◌∷◌, [], IfOk, OnOk, OnErr, length, take};
ghost use Rattle.std.specs.Prelude.{if◌then◌else◌, ◌<◌, ℕ, true, false, replicate, IsTrue};
ghost use Rattle.base_null_marks.specs.Marks.{has, marked, IsMarkSet};
ghost use Rattle.base_value.specs.declared.value.Value.TheVariants.{Null};
ghost use Rattle.base_columns.specs.Fields.{field_value, IsPrintableField};
ghost use Rattle.base_columns.specs.Shown.{shown};

use crate::field::{Field, field_of, value_of};
use crate::form::{Form, form_len, repeated_field, truncate as cut};
use crate::marked_form::MarkedForm;
use crate::padding::{padding, put_any};
use crate::pushes::{extend, put, put_spelled};
use base_null_marks::Marks;
use base_value::Value;
use std::alloc::{AllocError, Global};

// No mark at the place after the values of a form.
#[tactic(auto, using(crate::proofs::MarkedColumns::marks))]
fn clear_next(marks: &mut Marks, form: &Form)
    ensures { IsMarkSet marks.old marks.new (length (shown form.now)) false }
{
    if marks.are_none() {
        return;
    }
    marks.clear(form_len(form));
}

// One value more beside others of whatever kind, some of them marked.
#[tactic(auto, using(crate::proofs::MarkedColumns::marks))]
fn push_beside(values: &mut Vec<Value>, marks: &mut Marks, value: Value) -> Result<(), AllocError>
    ensures ok { OnOk result (marked Null marks.new values.new.items
        ≡ marked Null marks.old values.old.items ++ value ∷ []) }
    ensures err { OnErr result (marked Null marks.new values.new.items
        ≡ marked Null marks.old values.old.items) }
{
    marks.clear(values.len());
    values.push(value)?;
    Ok(())
}

// Whether the first n places are marked.
fn are_all_set(marks: &Marks, n: usize) -> bool
    ensures { IsTrue result → (i : ℕ) → i < n → has marks.now i ≡ true }
{
    for i in 0..n {
        if !marks.has(i) {
            return false;
        }
    }
    true
}

// A mark that is set or cleared past the end means nothing: so a push writes the mark of the new
// place first, and a failure after it leaves the values as they were.
#[tactic(auto, using(crate::proofs::MarkedColumns::columns))]
impl MarkedForm {
    /// One value more.
    pub(crate) fn push(&mut self, alloc: Global, value: &Value) -> Result<(), AllocError>
        ensures ok { OnOk result (self.new ≡ self.old ++ value.now ∷ []) }
        ensures err { OnErr result (self.new ≡ self.old) }
    {
        match field_of(value) {
            Some(field) => self.push_field(alloc, &field),
            None => {
                let value = value.clone()?;
                self.push_any(alloc, value)
            }
        }
    }

    /// One field more.
    pub(crate) fn push_field(&mut self, alloc: Global, field: &Field<'_>) -> Result<(), AllocError>
        requires { IsPrintableField field.now }
        ensures ok { OnOk result (self.new ≡ self.old ++ field_value field.now ∷ []) }
        ensures err { OnErr result (self.new ≡ self.old) }
    {
        if self.put_unmarked(alloc, field)? {
            return Ok(());
        }
        self.push_beside_marks(alloc, field)
    }

    // One field more, if there is no mark and the form holds it: so it is of most fields of a file.
    fn put_unmarked(&mut self, alloc: Global, field: &Field<'_>) -> Result<bool, AllocError>
        requires { IsPrintableField field.now }
        ensures ok { IfOk result
            (λ done. self.new
            ≡ (if done then self.old ++ field_value field.now ∷ [] else self.old)) }
        ensures err { OnErr result (self.new ≡ self.old) }
    {
        if !self.marks.are_none() {
            return Ok(false);
        }
        put(&mut self.form, alloc, field)
    }

    // One field more, maybe beside marks.
    fn push_beside_marks(&mut self, alloc: Global, field: &Field<'_>) -> Result<(), AllocError>
        requires { IsPrintableField field.now }
        ensures ok { OnOk result (self.new ≡ self.old ++ field_value field.now ∷ []) }
        ensures err { OnErr result (self.new ≡ self.old) }
    {
        if let Field::Null = field {
            return self.push_null(alloc);
        }
        if self.put_field(alloc, field)? {
            return Ok(());
        }
        self.adopt(alloc, &repeated_field(alloc, field, 0)?)?;
        if self.put_field(alloc, field)? {
            return Ok(());
        }
        let value = value_of(alloc, field)?;
        self.push_any(alloc, value)
    }

    /// One null more, for which the form stays as it is.
    pub(crate) fn push_null(&mut self, alloc: Global) -> Result<(), AllocError>
        ensures ok { OnOk result (self.new ≡ self.old ++ Null ∷ []) }
        ensures err { OnErr result (self.new ≡ self.old) }
    {
        if let Form::Values(_) = &self.form {
            return self.push_any(alloc, Value::Null);
        }
        if self.put_null(alloc)? {
            return Ok(());
        }
        self.push_any(alloc, Value::Null)
    }

    // Takes the form of another one where there is no value but null.
    fn adopt(&mut self, alloc: Global, form: &Form) -> Result<(), AllocError>
        ensures { self.new ≡ self.old }
    {
        if !self.are_all_null() {
            return Ok(());
        }
        let n = self.len();
        let padding = padding(alloc, form, n)?;
        *self = MarkedForm::nulls(alloc, padding, n)?;
        Ok(())
    }

    // Whether all places are marked.
    fn are_all_null(&self) -> bool
        ensures { IsTrue result → self.now ≡ replicate (length self.now) Null }
    {
        are_all_set(&self.marks, form_len(&self.form))
    }

    // One field more, if the form holds it, maybe with its texts spelled.
    fn put_field(&mut self, alloc: Global, field: &Field<'_>) -> Result<bool, AllocError>
        requires { IsPrintableField field.now }
        ensures ok { IfOk result
            (λ done. self.new
            ≡ (if done then self.old ++ field_value field.now ∷ [] else self.old)) }
        ensures err { OnErr result (self.new ≡ self.old) }
    {
        clear_next(&mut self.marks, &self.form);
        if put(&mut self.form, alloc, field)? {
            return Ok(true);
        }
        put_spelled(&mut self.form, alloc, field)
    }

    // One null more, if the form has something to put under its mark.
    fn put_null(&mut self, alloc: Global) -> Result<bool, AllocError>
        ensures ok { IfOk result
            (λ done. self.new ≡ (if done then self.old ++ Null ∷ [] else self.old)) }
        ensures err { OnErr result (self.new ≡ self.old) }
    {
        let n = form_len(&self.form);
        self.marks.set(n)?;
        put_any(&mut self.form, alloc)
    }

    // One value more, beside values of whatever kind, among which nulls need no marks.
    fn push_any(&mut self, alloc: Global, value: Value) -> Result<(), AllocError>
        ensures ok { OnOk result (self.new ≡ self.old ++ value ∷ []) }
        ensures err { OnErr result (self.new ≡ self.old) }
    {
        if let Form::Values(values) = &mut self.form {
            return push_beside(values, &mut self.marks, value);
        }
        self.push_wider(alloc, value)
    }

    // One value more in a form that holds any.
    fn push_wider(&mut self, alloc: Global, value: Value) -> Result<(), AllocError>
        ensures ok { OnOk result (self.new ≡ self.old ++ value ∷ []) }
        ensures err { OnErr result (self.new ≡ self.old) }
    {
        let mut values = self.widened(alloc)?;
        values.push(value)?;
        *self = MarkedForm::plain(alloc, Form::Values(values));
        Ok(())
    }

    /// The first n values alone.
    pub(crate) fn truncate(&mut self, n: usize)
        requires { n ≤ length self.old }
        ensures { self.new ≡ take n self.old }
    {
        self.marks.truncate(n);
        cut(&mut self.form, n);
    }

    // All values of another form, if both keep theirs alike.
    fn append_alike(&mut self, other: &MarkedForm) -> Result<bool, AllocError>
        ensures ok { IfOk result
            (λ done. self.new ≡ (if done then self.old ++ other.now else self.old)) }
        ensures err { OnErr result (self.new ≡ self.old) }
    {
        if self.marks.are_none() && other.marks.are_none() {
            return extend(&mut self.form, &other.form);
        }
        let n = form_len(&self.form);
        let m = form_len(&other.form);
        if m >= usize::MAX - n {
            return Ok(false);
        }
        self.marks.append(n, &other.marks, m)?;
        extend(&mut self.form, &other.form)
    }

    // All values of another form, one by one, as far as memory goes.
    fn push_all(&mut self, alloc: Global, other: &MarkedForm) -> Result<(), AllocError>
        ensures ok { OnOk result (self.new ≡ self.old ++ other.now) }
        ensures err { OnErr result (take (length self.old) self.new ≡ self.old) }
        ensures longer { length self.old ≤ length self.new }
    {
        for i in 0..other.len() {
            let value = other.at(alloc, i)?;
            self.push(alloc, &value)?;
        }
        Ok(())
    }

    /// All values of another form at the end.
    pub(crate) fn append(&mut self, alloc: Global, other: &MarkedForm) -> Result<(), AllocError>
        ensures ok { OnOk result (self.new ≡ self.old ++ other.now) }
        ensures err { OnErr result (self.new ≡ self.old) }
    {
        if self.append_alike(other)? {
            return Ok(());
        }
        self.adopt(alloc, &other.form)?;
        if self.append_alike(other)? {
            return Ok(());
        }
        let before = self.len();
        let done = self.push_all(alloc, other);
        if done.is_err() {
            self.truncate(before);
        }
        done
    }
}
