// The choice and the verdict on small lists, in both makes.
use crate::lists::record;
use apart::{Pair, equal_errors, residues, verdict};
use choice::choose;
use faults::{ClockList, FaultList, RowList};
use gf2::Feedback;
use refusal::Refusal;
use std::process::Abort;
use std::test::Fail;

// Six words of 9 are lent; the choice has this code and number of tried feedbacks, and leaves these words.
fn chooses<L: FaultList>(
    rt: &impl Abort,
    list: &L,
    low: u32,
    high: u32,
    code: u32,
    tried: u32,
    left: [u32; 6],
) -> Result<(), Fail> {
    let mut words = [9; 6];
    let choice = choose(list, low, high, &mut words)?;
    assert_eq!(rt; choice.feedback.code(), code);
    assert_eq!(rt; choice.tried, tried);
    assert_eq!(rt; words, left);
    Ok(())
}

// The choice is refused so, and the words are these.
fn declines<L: FaultList>(
    rt: &impl Abort,
    list: &L,
    low: u32,
    high: u32,
    refusal: Refusal,
    left: [u32; 6],
) {
    let mut words = [9; 6];
    assert_eq!(rt; choose(list, low, high, &mut words), Err(refusal));
    assert_eq!(rt; words, left);
}

#[test]
fn three_faults_of_two_classes(rt: HostRuntime) -> Result<(), Fail> {
    let records = [record(1, 0, 1), record(2, 1, 1), record(1, 2, 2)];
    let mut clocks = ClockList::new();
    clocks.fill(4, &records, &[2, 3, 1, 2])?;
    two_classes(&rt, &clocks)?;
    let mut rows = RowList::new();
    rows.fill(4, &[1, 2, 1], &[0b0010_0000, 0b0001_0000, 0b0110_0000])?;
    two_classes(&rt, &rows)
}

fn two_classes<L: FaultList>(rt: &impl Abort, list: &L) -> Result<(), Fail> {
    // by x^2 + x + 1 the errors x, 1 and x^2 + x leave x, 1 and 1
    let left = residues(list, Feedback::new(7)?);
    assert!(rt; left[..4] == [0, 2, 1, 1]);
    chooses(rt, list, 1, 6, 11, 4, [0, 2, 1, 6, 9, 9])?;
    chooses(rt, list, 4, 24, 19, 1, [0, 2, 1, 6, 9, 9])?;
    declines(rt, list, 1, 2, Refusal::NoneKeepsApart, [0, 0, 0, 0, 9, 9]);
    assert_eq!(rt;
        verdict(list, 7),
        Ok(Some(Pair {
            first: 2,
            second: 3,
        }))
    );
    assert_eq!(rt;
        verdict(list, 2),
        Ok(Some(Pair {
            first: 0,
            second: 1,
        }))
    );
    assert_eq!(rt; verdict(list, 11), Ok(None));
    for code in [0, 1, 21, 33_554_432, 4_294_967_298] {
        assert_eq!(rt; verdict(list, code), Err(Refusal::NotAFeedback));
    }
    Ok(())
}

#[test]
fn three_faults_of_one_class(rt: HostRuntime) -> Result<(), Fail> {
    let records = [record(1, 0, 1), record(1, 1, 1), record(1, 2, 2)];
    let mut clocks = ClockList::new();
    clocks.fill(4, &records, &[2, 3, 1, 2])?;
    chooses(&rt, &clocks, 1, 6, 7, 3, [0, 2, 1, 1, 9, 9])?;
    let mut rows = RowList::new();
    rows.fill(4, &[1, 1, 1], &[0b0010_0000, 0b0001_0000, 0b0110_0000])?;
    chooses(&rt, &rows, 1, 6, 7, 3, [0, 2, 1, 1, 9, 9])
}

// One fault of three clocks, wrong at the last clock, at the first two, and nowhere.
#[test]
fn one_fault(rt: HostRuntime) -> Result<(), Fail> {
    let mut list = ClockList::new();
    let last = [record(1, 0, 1)];
    list.fill(3, &last, &[2])?;
    chooses(&rt, &list, 1, 2, 2, 1, [0, 1, 9, 9, 9, 9])?;
    let two = [record(1, 0, 2)];
    list.fill(3, &two, &[0, 1])?;
    declines(
        &rt,
        &list,
        1,
        1,
        Refusal::NoneKeepsApart,
        [0, 0, 9, 9, 9, 9],
    );
    chooses(&rt, &list, 1, 2, 7, 3, [0, 1, 9, 9, 9, 9])?;
    let nowhere = [record(1, 0, 0)];
    list.fill(3, &nowhere, &[])?;
    declines(
        &rt,
        &list,
        1,
        2,
        Refusal::EqualErrors {
            first: 0,
            second: 1,
        },
        [9; 6],
    );
    assert_eq!(rt;
        equal_errors(&list),
        Some(Pair {
            first: 0,
            second: 1,
        })
    );
    assert_eq!(rt;
        verdict(&list, 19),
        Ok(Some(Pair {
            first: 0,
            second: 1,
        }))
    );
    let harmless = [record(0, 0, 0)];
    list.fill(3, &harmless, &[])?;
    assert_eq!(rt; equal_errors(&list), None);
    chooses(&rt, &list, 1, 2, 2, 1, [0, 0, 9, 9, 9, 9])
}

// Of several pairs with equal errors the first is named: smallest first entry, then smallest second.
#[test]
fn the_first_pair_is_named(rt: HostRuntime) -> Result<(), Fail> {
    let mut rows = RowList::new();
    rows.fill(
        5,
        &[1, 2, 2, 3, 1],
        &[
            0b1000_0000,
            0b0001_1000,
            0b1000_0000,
            0b0001_1000,
            0b0001_1000,
        ],
    )?;
    declines(
        &rt,
        &rows,
        1,
        24,
        Refusal::EqualErrors {
            first: 1,
            second: 3,
        },
        [9; 6],
    );
    assert_eq!(rt;
        verdict(&rows, 2),
        Ok(Some(Pair {
            first: 0,
            second: 1,
        }))
    );
    Ok(())
}

#[test]
fn degrees_and_words_are_checked_first(rt: HostRuntime) -> Result<(), Fail> {
    let list = ClockList::new();
    for (low, high) in [(0, 1), (2, 1), (1, 25), (25, 25), (257, 258)] {
        declines(&rt, &list, low, high, Refusal::DegreesOutOfRange, [9; 6]);
    }
    chooses(&rt, &list, 24, 24, 16_777_243, 1, [0, 9, 9, 9, 9, 9])?;
    assert_eq!(rt; choose(&list, 1, 24, &mut []), Err(Refusal::TooFewWords));
    Ok(())
}
