//! Suppliers.
ghost use Rattle.std.specs.Prelude.{◌≡◌, ◌<◌, ◌≤◌, ◌+◌, ◌*◌, ◌^◌, ◌++◌, OnOk, IfOk};
ghost use Rattle.app_sample_data.specs.Fields.{field};
ghost use Rattle.app_sample_data.specs.Lines.{lines, supplier_comment, supplier_line};
ghost use Rattle.app_sample_data.specs.Lines.{supplier_tail};
ghost use Rattle.app_sample_data.specs.Numbers.{IsDataNumber};

use crate::fields::{
    end_line, push_balance, push_labelled, push_number, push_residence, push_word,
};
use std::alloc::{AllocError, Global};

/// What is said of a supplier.
#[tactic(auto, unfolding(crate::specs::Lines::supplier_comment))]
fn supplier_comment(key: u64) -> &'static str
    ensures { result.now ≡ supplier_comment key }
{
    if key % 7 == 0 {
        "Customer Complaints"
    } else {
        "ok"
    }
}

/// Appends the last fields of a supplier.
#[tactic(auto, unfolding(crate::specs::Lines::supplier_tail))]
fn push_supplier_tail(text: &mut Vec<u8>, number: u64, key: u64) -> Result<(), AllocError>
    requires number { IsDataNumber number }
    requires key { key < 2 ^ 16 }
    ensures { OnOk result (text.new.items ≡ text.old.items ++ supplier_tail number key) }
{
    push_balance(text, number, 2, key)?;
    push_word(text, supplier_comment(key))?;
    Ok(())
}

/// Appends a supplier's line.
#[tactic(auto, unfolding(crate::specs::Lines::supplier_line))]
fn push_supplier(text: &mut Vec<u8>, number: u64, key: u64) -> Result<(), AllocError>
    requires number { IsDataNumber number }
    requires key { key < 2 ^ 16 }
    ensures { OnOk result (text.new.items ≡ text.old.items ++ supplier_line number key) }
{
    push_number(text, key)?;
    push_labelled(text, "Supplier#", key)?;
    push_residence(text, number, 1, key)?;
    push_supplier_tail(text, number, key)?;
    end_line(text)?;
    Ok(())
}

/// The text of the suppliers.
pub fn supplier_text(alloc: Global, number: u64) -> Result<Vec<u8>, AllocError>
    requires { IsDataNumber number }
    ensures { IfOk result (λ text. text.items ≡ lines (supplier_line number) 1 (10 * number + 1)) }
{
    let mut text = Vec::new(alloc);
    for key in 1..10 * number + 1 {
        push_supplier(&mut text, number, key)?;
    }
    Ok(text)
}
