//! The eleven texts.
ghost use Rattle.std.specs.Prelude.{◌≡◌, ◌≤◌, ◌++◌, ◌∷◌, [], OnOk, IfOk};
ghost use Rattle.app_sample_data.specs.Texts.{lasting, made, named, ordered, refresh_set};
ghost use Rattle.app_sample_data.specs.Numbers.{IsDataNumber};

use crate::customer::customer_text;
use crate::lineitem::lineitem_text;
use crate::orders::{delete_text, order_text};
use crate::part::part_text;
use crate::partsupp::partsupp_text;
use crate::places::{nation_text, region_text};
use crate::supplier::supplier_text;
use crate::text::NamedText;
use std::alloc::{AllocError, Global};

/// Adds a text under a name.
#[tactic(auto, unfolding(crate::specs::Texts::named))]
fn add(
    alloc: Global,
    texts: &mut Vec<NamedText>,
    name: &str,
    bytes: Vec<u8>,
) -> Result<(), AllocError>
    ensures { OnOk result (named texts.new.items ≡ named texts.old.items ++ (name.now, bytes.items)
        ∷ []) }
{
    let name = String::from_str(alloc, name)?;
    texts.push(NamedText { name, bytes })?;
    Ok(())
}

/// Adds the tables that have parts, suppliers and customers, and those of places.
#[tactic(auto, unfolding(crate::specs::Texts::lasting))]
fn add_lasting(alloc: Global, texts: &mut Vec<NamedText>, number: u64) -> Result<(), AllocError>
    requires { IsDataNumber number }
    ensures { OnOk result (named texts.new.items ≡ named texts.old.items ++ lasting number) }
{
    add(alloc, texts, "region.tbl", region_text(alloc)?)?;
    add(alloc, texts, "nation.tbl", nation_text(alloc)?)?;
    add(alloc, texts, "part.tbl", part_text(alloc, number)?)?;
    add(alloc, texts, "supplier.tbl", supplier_text(alloc, number)?)?;
    add(alloc, texts, "partsupp.tbl", partsupp_text(alloc, number)?)?;
    add(alloc, texts, "customer.tbl", customer_text(alloc, number)?)?;
    Ok(())
}

/// Adds the tables of orders and lineitems.
#[tactic(auto, unfolding(crate::specs::Texts::ordered))]
fn add_orders(alloc: Global, texts: &mut Vec<NamedText>, number: u64) -> Result<(), AllocError>
    requires { IsDataNumber number }
    ensures { OnOk result (named texts.new.items ≡ named texts.old.items ++ ordered number) }
{
    let end = 30 * number + 1;
    add(
        alloc,
        texts,
        "orders.tbl",
        order_text(alloc, number, 1, end)?,
    )?;
    add(
        alloc,
        texts,
        "lineitem.tbl",
        lineitem_text(alloc, number, 1, end)?,
    )?;
    Ok(())
}

/// Adds the files of the refresh set.
#[tactic(auto, unfolding(crate::specs::Texts::refresh_set))]
fn add_refresh_set(alloc: Global, texts: &mut Vec<NamedText>, number: u64) -> Result<(), AllocError>
    requires { IsDataNumber number }
    ensures { OnOk result (named texts.new.items ≡ named texts.old.items ++ refresh_set number) }
{
    let first = 30 * number + 1;
    let end = 33 * number + 1;
    add(
        alloc,
        texts,
        "orders.tbl.u1",
        order_text(alloc, number, first, end)?,
    )?;
    add(
        alloc,
        texts,
        "lineitem.tbl.u1",
        lineitem_text(alloc, number, first, end)?,
    )?;
    add(
        alloc,
        texts,
        "delete.1",
        delete_text(alloc, 3 * number + 1)?,
    )?;
    Ok(())
}

/// The data for a number from 1 to 1000: the files of the eight tables in the schema's order, then
/// those of refresh set 1, the same bytes at each call. Its size goes up with the number: orders
/// are 30 times the number, and the set's 3 times. The only error is out of memory.
#[tactic(auto, unfolding(crate::specs::Texts::made, crate::specs::Texts::named))]
pub fn make(alloc: Global, number: u64) -> Result<Vec<NamedText>, AllocError>
    requires { IsDataNumber number }
    ensures { IfOk result (λ texts. named texts.items ≡ made number) }
{
    let mut texts = Vec::new(alloc);
    add_lasting(alloc, &mut texts, number)?;
    add_orders(alloc, &mut texts, number)?;
    add_refresh_set(alloc, &mut texts, number)?;
    Ok(texts)
}
