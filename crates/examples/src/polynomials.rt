// Feedback numbers, and divisions by hand.
use gf2::{Feedback, is_irreducible, product};
use refusal::Refusal;
use std::test::Fail;

// Numbers, and whether each is a feedback's. 31 is, though not primitive; 21 is a square; the last three pass 2^25.
const NUMBERS: [(u64, bool); 14] = [
    (0, false),
    (1, false),
    (2, true),
    (3, true),
    (4, false),
    (7, true),
    (19, true),
    (21, false),
    (31, true),
    (16_777_243, true),
    (33_554_419, true),
    (33_554_432, false),
    (4_294_967_298, false),
    (9_223_372_036_854_775_811, false),
];

#[test]
fn feedbacks_have_their_numbers(rt: HostRuntime) {
    for (code, is_feedback) in NUMBERS {
        match Feedback::new(code) {
            Ok(feedback) => assert!(rt; is_feedback && u64::from(feedback.code()) == code),
            Err(refusal) => assert!(rt; !is_feedback && refusal == Refusal::NotAFeedback),
        }
    }
}

#[test]
fn degrees_are_those_of_the_highest_power(rt: HostRuntime) -> Result<(), Fail> {
    assert_eq!(rt; Feedback::new(2)?.degree(), 1);
    assert_eq!(rt; Feedback::new(19)?.degree(), 4);
    assert_eq!(rt; Feedback::new(33_554_419)?.degree(), 24);
    Ok(())
}

// 1000101 is x^6 + x^2 + 1, which is x^2 times x^4 + x + 1, and x^3 + 1 more.
#[test]
fn a_response_leaves_nine(rt: HostRuntime) -> Result<(), Fail> {
    let feedback = Feedback::new(19)?;
    let bits = [true, false, false, false, true, false, true];
    assert_eq!(rt; feedback.residue(&bits), 9);
    assert_eq!(rt; feedback.residue(&[]), 0);
    let (quotient, remainder) = feedback.divide(0b1000101);
    assert_eq!(rt; (quotient, remainder), (4, 9));
    assert_eq!(rt; product(4, 19) ^ 9, 0b1000101);
    Ok(())
}

// The longest dividend: its quotient by x has one digit less.
#[test]
fn every_digit_is_divided(rt: HostRuntime) -> Result<(), Fail> {
    assert_eq!(rt; Feedback::new(2)?.divide(u64::MAX), (u64::MAX / 2, 1));
    Ok(())
}

#[test]
fn a_clock_takes_any_number(rt: HostRuntime) -> Result<(), Fail> {
    let feedback = Feedback::new(19)?;
    assert_eq!(rt; feedback.clock(4, true), 9);
    assert_eq!(rt; feedback.clock(9, false), 1);
    assert_eq!(rt;
        u64::from(feedback.clock(u32::MAX, true)),
        feedback.divide(2 * u64::from(u32::MAX) + 1).1
    );
    Ok(())
}

// The irreducible polynomials of degree 1 to 5: there are 2, 1, 2, 3 and 6 of them.
const IRREDUCIBLE: [u32; 14] = [2, 3, 7, 11, 13, 19, 25, 31, 37, 41, 47, 55, 59, 61];

#[test]
fn the_irreducible_polynomials_are_found(rt: HostRuntime) {
    for code in 0..64u32 {
        assert_eq!(rt; is_irreducible(code), IRREDUCIBLE.contains(&code));
    }
}
