// Looking at the rules before a list is filled.
ghost use Rattle.std.specs.Prelude.{◌↔◌, ℕ, ◌<◌, true, false, IsTrue};
ghost use Rattle.faults.specs.Filling.{Sized, Checks, FindsBroken};

use crate::sizes::{MAX_CLOCKS, MAX_FAULTS};
use refusal::Refusal;

// 11 at 0 where the length or the number of faults is not allowed, else at the first fault that breaks a rule, from 1.
pub(crate) fn check<F: Fn(usize) -> bool>(n: usize, count: usize, keeps: F) -> Result<(), Refusal>
    requires { Sized n count → (i : ℕ) → i < count → F.pre keeps i }
    ensures { Checks n count (λ i. F.post keeps i true) (λ i. F.post keeps i false) result }
{
    if !is_sized(n, count) {
        return Err(Refusal::UnlawfulList { fault: 0 });
    }
    match first_broken(count, keeps) {
        Some(i) => Err(Refusal::UnlawfulList { fault: i + 1 }),
        None => Ok(()),
    }
}

// The first place at which the rules are not kept.
fn first_broken<F: Fn(usize) -> bool>(count: usize, keeps: F) -> Option<usize>
    requires { (i : ℕ) → i < count → F.pre keeps i }
    ensures { FindsBroken count (λ i. F.post keeps i true) (λ i. F.post keeps i false) result }
{
    (0..count).find(
        |&i|
            requires { F.pre keeps i }
        { !keeps(i) },
    )
}

// Whether a list may have so many clocks and faults.
fn is_sized(n: usize, count: usize) -> bool
    ensures { IsTrue result ↔ Sized n count }
{
    (1..=MAX_CLOCKS).contains(&n) && count <= MAX_FAULTS
}
