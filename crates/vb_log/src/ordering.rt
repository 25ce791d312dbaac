ghost use Rattle.std.specs.Prelude.{◌≡◌, ◌++◌, map as list_map, IfOk};
ghost use Rattle.std.specs.FinMap as map;
ghost use Rattle.doc_model.specs.declared.document.Item.{Item};
ghost use Rattle.doc_model.specs.Keys.{key_cmp};
ghost use Rattle.doc_model.specs.Values.{AreValues};
ghost use Rattle.vb_log.specs.Held.{StandAtKeys};

use doc_model::{Item, Values};
use kv_edge::NoMemory;
use std::alloc::Global;

/// The items of a map, in rising order of their keys.
pub(crate) fn in_order<'a>(
    alloc: Global,
    values: Values<'a, Item>,
) -> Result<Vec<&'a Item>, NoMemory>
    ensures { (m : map.FinMap key_cmp Item) → AreValues m (list_map (λ e. e.1) values.entry.slots ++ values.entry.others)
        → StandAtKeys m → IfOk result (λ items. list_map (λ i. i.now) items.items ≡ map.values m) }
{
    let mut items = listed(alloc, values)?;
    items.sort_unstable_by(|a, b| a.key.cmp(&b.key));
    Ok(items)
}

/// The values, in the order in which they come.
pub(crate) fn listed<'a>(alloc: Global, values: Values<'a, Item>) -> Result<Vec<&'a Item>, NoMemory>
    ensures { IfOk result (λ items. list_map (λ i. i.now) items.items ≡ list_map (λ e. e.1) values.entry.slots ++ values.entry.others) }
{
    let mut items = Vec::new(alloc);
    for item in values {
        items.push(item)?;
    }
    Ok(items)
}
