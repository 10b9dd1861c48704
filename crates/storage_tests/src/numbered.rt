//! Items that come and go by their numbers.

use numbered_items::{HasNumber, Numbered};
use std::alloc::Global;
use std::test::Fail;

#[derive(Drop)]
struct Item {
    number: u32,
    value: u32,
}

impl HasNumber for Item {
    ghost number_of = { λ i. i.number };

    fn number(&self) -> u32 {
        self.number
    }
}

fn three(alloc: Global) -> Result<Numbered<Item>, Fail> {
    let mut items = Numbered::new(alloc);
    for (number, value) in [(2, 20), (1, 10), (3, 30)] {
        if items.get(number).is_none() {
            items.put(Item { number, value })?;
        }
    }
    Ok(items)
}

fn value_at(items: &Numbered<Item>, number: u32) -> u32 {
    items.get(number).map_or(0, |item| item.value)
}

#[test]
fn items_by_number(rt: HostRuntime) -> Result<(), Fail> {
    let mut items = three(rt.alloc())?;
    let _ = items.remove(2);
    for (number, value) in [(1, 10), (2, 0), (3, 30), (4, 0)] {
        assert_eq!(rt; value_at(&items, number), value);
    }
    Ok(())
}
