// What is printed of a list, whatever its make.
use apart::{Pair, verdict};
use choice::choose;
use explain::Polynomial;
use faults::{FaultList, MAX_ENTRIES};
use refusal::Refusal;
use std::ops::RangeInclusive;

// The list, and the choice from these degrees.
pub(crate) fn show_list<L: FaultList>(
    rt: &HostRuntime,
    make: &str,
    list: &L,
    degrees: &RangeInclusive<u32>,
) -> anyhow::Result<()> {
    println!(rt;
        "As a {make}: {} clocks, degrees {} to {}",
        list.clocks(),
        degrees.start(),
        degrees.end()
    )?;
    for i in 1..=list.count() {
        print!(rt; "  entry {i}, class {}, wrong at", list.class(i))?;
        show_clocks(rt, list, i)?;
    }
    show_choice(rt, list, degrees)
}

// The clocks at which an entry is wrong, to the end of the line.
fn show_clocks<L: FaultList>(rt: &HostRuntime, list: &L, i: usize) -> anyhow::Result<()> {
    let mut wrong = (0..list.clocks())
        .filter(|&clock| list.wrong(i, clock))
        .peekable();
    if wrong.peek().is_none() {
        print!(rt; " no clock")?;
    }
    for clock in wrong {
        print!(rt; " {clock}")?;
    }
    println!(rt; "")?;
    Ok(())
}

// What is chosen, and which entries each feedback before it confuses; where none is chosen, which entries each one confuses.
fn show_choice<L: FaultList>(
    rt: &HostRuntime,
    list: &L,
    degrees: &RangeInclusive<u32>,
) -> anyhow::Result<()> {
    let (low, high) = (*degrees.start(), *degrees.end());
    let mut words = [0; MAX_ENTRIES];
    match choose(list, low, high, &mut words) {
        Ok(choice) => {
            let code = choice.feedback.code();
            show_reasons(rt, list, power(low), code)?;
            println!(rt;
                "  {code}: {} keeps the classes apart; tried {}",
                Polynomial { code },
                choice.tried
            )?;
            Ok(())
        }
        Err(refusal) => {
            if refusal == Refusal::NoneKeepsApart {
                show_reasons(rt, list, power(low), power(high.saturating_add(1)))?;
            }
            show_refusal(rt, refusal)
        }
    }
}

// The code of x^k, the smallest of the degree k, if 32 bits hold it.
fn power(k: u32) -> u32 {
    1u32.checked_shl(k).unwrap_or(u32::MAX)
}

// Which entries each feedback below the end confuses.
fn show_reasons<L: FaultList>(
    rt: &HostRuntime,
    list: &L,
    from: u32,
    end: u32,
) -> anyhow::Result<()> {
    for code in from..end {
        if let Ok(Some(Pair { first, second })) = verdict(list, u64::from(code)) {
            println!(rt;
                "  {code}: {} confuses entries {first} and {second}",
                Polynomial { code }
            )?;
        }
    }
    Ok(())
}

pub(crate) fn show_refusal(rt: &HostRuntime, refusal: Refusal) -> anyhow::Result<()> {
    println!(rt; "  refused: {refusal}")?;
    Ok(())
}
