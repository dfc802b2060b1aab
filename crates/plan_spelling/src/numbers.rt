//! A plan as it is printed.
ghost use Rattle.std.specs.Prelude.{◌≡◌, ◌++◌, ◌<◌, ◌^◌, OnOk};
ghost use Rattle.base_row_laws.specs.Bags.{Each};
ghost use Rattle.plan_spelling.specs.Plans.{EndsWithPlan, numbers_text, plan_line};

use crate::nodes::plan_spelling;
use itoa::Buffer;
use plan_algebra::Node;
use std::alloc::{AllocError, Global};

/// Appends numbers in decimal digits, a space after each.
pub fn push_numbers(text: &mut Vec<u8>, numbers: &[u128]) -> Result<(), AllocError>
    ensures { OnOk result (text.new.items ≡ text.old.items ++ numbers_text numbers.now) }
{
    for number in numbers {
        let mut buffer = Buffer::new();
        text.extend_from_slice(buffer.format(*number).as_bytes())?;
        text.push(b' ')?;
    }
    Ok(())
}

/// Each number of the machine has at most 64 digits.
fn have_few_digits(numbers: &[u128])
    ensures { Each (λ m. m < 10 ^ 64) numbers.now }
{
    let _count = numbers.len();
}

/// Appends the line of a plan of these nodes, under its title. No other plan has that line.
#[tactic(auto, using(crate::proofs::Texts::ends_with_plan))]
pub fn push_plan(alloc: Global, text: &mut Vec<u8>, nodes: &[Node]) -> Result<(), AllocError>
    ensures line { OnOk result (text.new.items ≡ text.old.items ++ plan_line nodes.now) }
    ensures ends { OnOk result (EndsWithPlan nodes.now text.new.items) }
{
    let numbers = plan_spelling(alloc, nodes)?;
    have_few_digits(numbers.as_slice());
    text.extend_from_slice(b"spelling\n")?;
    push_numbers(text, numbers.as_slice())?;
    text.push(b'\n')?;
    Ok(())
}
