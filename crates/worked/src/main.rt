// worked: the choice on small lists, in both makes, and why each feedback before the chosen one fails.
#![tactic(auto)]

mod memory;
mod telling;

use faults::{ClockList, RowList};
use memory::Memory;
use std::ops::RangeInclusive;

// Three faults of four clocks, in two classes and in one. Then one fault of three clocks: wrong at the last, at the first two, and nowhere.
fn main(rt: HostRuntime) -> anyhow::Result<()> {
    let two_classes: [(u8, &[u16]); 3] = [(1, &[2]), (2, &[3]), (1, &[1, 2])];
    let one_class: [(u8, &[u16]); 3] = [(1, &[2]), (1, &[3]), (1, &[1, 2])];
    let last: [(u8, &[u16]); 1] = [(1, &[2])];
    let first_two: [(u8, &[u16]); 1] = [(1, &[0, 1])];
    let nowhere: [(u8, &[u16]); 1] = [(1, &[])];
    let harmless: [(u8, &[u16]); 1] = [(0, &[])];
    for (n, faults, degrees) in [
        (4, &two_classes[..], 1..=6),
        (4, &one_class[..], 1..=6),
        (3, &last[..], 1..=2),
        (3, &first_two[..], 1..=1),
        (3, &first_two[..], 1..=2),
        (3, &nowhere[..], 1..=2),
        (3, &harmless[..], 1..=2),
    ] {
        show(&rt, n, faults, &degrees)?;
    }
    Ok(())
}

// Faults of n clocks, a class and the wrong clocks for each, and the degrees to choose from.
fn show(
    rt: &HostRuntime,
    n: usize,
    faults: &[(u8, &[u16])],
    degrees: &RangeInclusive<u32>,
) -> anyhow::Result<()> {
    let memory = Memory::of(rt.alloc(), n, faults)?;
    let mut by_clocks = ClockList::new();
    let mut by_rows = RowList::new();
    if let Err(refusal) = by_clocks.fill(n, &memory.records, &memory.clocks) {
        return telling::show_refusal(rt, refusal);
    }
    if let Err(refusal) = by_rows.fill(n, &memory.classes, &memory.rows) {
        return telling::show_refusal(rt, refusal);
    }
    telling::show_list(rt, "clock list", &by_clocks, degrees)?;
    telling::show_list(rt, "row list", &by_rows, degrees)?;
    println!(rt; "")?;
    Ok(())
}
