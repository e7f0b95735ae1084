// Fault lists in both makes, what they tell and what filling refuses; and a make of a caller's own.
ghost use Rattle.std.specs.Prelude.{◌+◌, []};

use apart::{equal_errors, verdict};
use choice::choose;
use faults::{ClockList, FaultList, FaultRecord, RowList, Span};
use refusal::Refusal;
use std::process::Abort;
use std::test::Fail;

// A record whose clocks begin at a place of the clock memory.
pub(crate) fn record(class: u8, start: usize, len: usize) -> FaultRecord {
    FaultRecord {
        class,
        clocks: Span { start, len },
        name: Span::default(),
    }
}

#[test]
fn lists_begin_with_one_clock_and_no_faults(rt: HostRuntime) {
    begins_empty(&rt, &ClockList::new());
    begins_empty(&rt, &RowList::new());
}

fn begins_empty<L: FaultList>(rt: &impl Abort, list: &L) {
    assert_eq!(rt; list.clocks(), 1);
    assert_eq!(rt; list.count(), 0);
}

// Four clocks: faults of classes 1, 2, 1, wrong at 2, at 3, and at 1 and 2. The last four bits of each row do not count.
#[test]
fn both_makes_tell_the_same(rt: HostRuntime) -> Result<(), Fail> {
    let records = [record(1, 0, 1), record(2, 1, 1), record(1, 2, 2)];
    let mut clocks = ClockList::new();
    clocks.fill(4, &records, &[2, 3, 1, 2])?;
    tells_three_faults(&rt, &clocks);
    let mut rows = RowList::new();
    rows.fill(4, &[1, 2, 1], &[0b0010_1111, 0b0001_0000, 0b0110_1000, 255])?;
    tells_three_faults(&rt, &rows);
    Ok(())
}

fn tells_three_faults<L: FaultList>(rt: &impl Abort, list: &L) {
    assert_eq!(rt; list.clocks(), 4);
    assert_eq!(rt; list.count(), 3);
    for (i, class, wrong) in [
        (0, 0, [false, false, false, false, false]),
        (1, 1, [false, false, true, false, false]),
        (2, 2, [false, false, false, true, false]),
        (3, 1, [false, true, true, false, false]),
        (4, 0, [false, false, false, false, false]),
    ] {
        assert_eq!(rt; list.class(i), class);
        for (clock, w) in wrong.iter().enumerate() {
            assert_eq!(rt; list.wrong(i, clock), *w);
        }
    }
    // the words of x^3, x^2, x and 1 are 8, 4, 2 and 1: the sum is the error itself
    let table = [1, 2, 4, 8];
    assert_eq!(rt; list.combine(0, &table), 0);
    assert_eq!(rt; list.combine(1, &table), 0b0010);
    assert_eq!(rt; list.combine(2, &table), 0b0001);
    assert_eq!(rt; list.combine(3, &table), 0b0110);
    assert_eq!(rt; list.combine(3, &[1, 2, 4]), 0);
}

// Each breaks one rule, and the place is that of the fault, or 0 for length and number.
#[test]
fn a_clock_list_refuses_what_breaks_a_rule(rt: HostRuntime) {
    let clocks = [0, 2, 2, 3, 1];
    let good = record(99, 0, 2);
    for (n, second, place) in [
        (0, good, 0),
        (4097, good, 0),
        (3, good, 3),
        (4, record(100, 0, 2), 2),
        (4, record(1, 1, 2), 2),
        (4, record(1, 3, 2), 2),
        (4, record(1, 4, 2), 2),
        (4, record(1, 6, 0), 2),
        (4, record(1, usize::MAX, 2), 2),
    ] {
        let records = [good, second, record(0, 3, 1)];
        let mut list = ClockList::new();
        assert_eq!(rt;
            list.fill(n, &records, &clocks),
            Err(Refusal::UnlawfulList { fault: place })
        );
        begins_empty(&rt, &list);
    }
}

#[test]
fn two_hundred_faults_pass_and_one_more_does_not(rt: HostRuntime) -> Result<(), Fail> {
    let memory = [record(0, 0, 0); 201];
    let records = &memory[..];
    let mut clocks = ClockList::new();
    assert_eq!(rt;
        clocks.fill(4096, records, &[]),
        Err(Refusal::UnlawfulList { fault: 0 })
    );
    clocks.fill(4096, &records[..200], &[])?;
    assert_eq!(rt; clocks.count(), 200);
    let memory = [0; 201];
    let zeros = &memory[..];
    let mut rows = RowList::new();
    assert_eq!(rt;
        rows.fill(8, zeros, zeros),
        Err(Refusal::UnlawfulList { fault: 0 })
    );
    rows.fill(8, &zeros[..200], &zeros[..200])?;
    assert_eq!(rt; rows.count(), 200);
    Ok(())
}

// Nine clocks take two bytes a row.
#[test]
fn a_row_list_refuses_what_breaks_a_rule(rt: HostRuntime) {
    for (n, class, place) in [(0, 1, 0), (4097, 1, 0), (9, 100, 2), (9, 99, 3)] {
        let classes = [0, class, 2];
        let mut list = RowList::new();
        let filled = list.fill(n, &classes, &[255, 255, 255, 255, 255]);
        assert_eq!(rt; filled, Err(Refusal::UnlawfulList { fault: place }));
        begins_empty(&rt, &list);
    }
}

// A list that holds something keeps it when the next fill is refused.
#[test]
fn a_refused_fill_leaves_the_list(rt: HostRuntime) -> Result<(), Fail> {
    let records = [record(7, 0, 1)];
    let mut clocks = ClockList::new();
    clocks.fill(3, &records, &[2])?;
    assert!(rt; clocks.fill(2, &records, &[2]).is_err());
    holds_one_fault(&rt, &clocks);
    let mut rows = RowList::new();
    rows.fill(3, &[7], &[0b0010_0000])?;
    assert!(rt; rows.fill(3, &[7], &[]).is_err());
    holds_one_fault(&rt, &rows);
    Ok(())
}

fn holds_one_fault<L: FaultList>(rt: &impl Abort, list: &L) {
    assert_eq!(rt; list.clocks(), 3);
    assert_eq!(rt; list.class(1), 7);
    assert!(rt; list.wrong(1, 2));
}

// A list without faults whose length is told by a byte. That it is below 4,096 is known from the byte alone, and no invariant has to say so.
#[derive(Clone, Copy)]
struct Faultless {
    last: u8,
}

impl FaultList for Faultless {
    ghost means = { λ s. record { clocks = s.last + 1; faults = [] } };

    fn clocks(&self) -> usize {
        usize::from(self.last) + 1
    }

    fn count(&self) -> usize {
        0
    }

    fn class(&self, _i: usize) -> u8 {
        0
    }

    fn wrong(&self, _i: usize, _clock: usize) -> bool {
        false
    }
}

// It takes the trait's own way to combine. Any feedback keeps it apart, and so the first is chosen.
#[test]
fn a_make_may_know_its_bounds_from_its_types(rt: HostRuntime) -> Result<(), Fail> {
    let list = Faultless { last: 255 };
    assert_eq!(rt; list.clocks(), 256);
    assert_eq!(rt; list.combine(0, &[7; 256]), 0);
    assert_eq!(rt; verdict(&list, 19), Ok(None));
    assert_eq!(rt; equal_errors(&list), None);
    assert_eq!(rt; choose(&list, 3, 5, &mut [9; 2])?.feedback.code(), 11);
    Ok(())
}
