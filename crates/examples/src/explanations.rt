// What is said of a feedback number and a response.
use explain::{ExplainError, Polynomial, explain, spell};
use std::alloc::Global;
use std::test::Fail;

// Whether this text is said of the two arguments.
fn says(heap: Global, code: &[u8], bits: &[u8], text: &str) -> Result<bool, Fail> {
    Ok(explain(heap, code, bits)?.as_str() == text)
}

#[test]
fn a_feedback_gets_four_lines(rt: HostRuntime) -> Result<(), Fail> {
    let heap = rt.alloc();
    let nothing =
        "2 is x, a feedback of degree 1\nthe response has length 0\nits quotient is 0\nits remainder is 0\n";
    assert!(rt; says(heap, b"2", b"", nothing)?);
    let one =
        "3 is x + 1, a feedback of degree 1\nthe response has length 2\nits quotient is 1\nits remainder is 1\n";
    assert!(rt; says(heap, b"003", b"10", one)?);
    Ok(())
}

#[test]
fn another_number_gets_the_refusal_line(rt: HostRuntime) -> Result<(), Fail> {
    let heap = rt.alloc();
    let line = "X        5       17        0        0\n";
    assert!(rt; says(heap, b"21", b"1", line)?);
    assert!(rt; says(heap, b"33554432", b"1", line)?);
    assert!(rt; says(heap, b"18446744073709551618", b"1", line)?);
    Ok(())
}

// The quotient of 2^64 by x is 2^63, and that of 2^65 + 1 is 2^64, one digit too long.
#[test]
fn a_quotient_is_shown_while_it_fits(rt: HostRuntime) -> Result<(), Fail> {
    let heap = rt.alloc();
    let mut bits = vec![in heap; b'0'; 65]?;
    assert!(rt; bits.len() == 65);
    bits[0] = b'1';
    let fits =
        "2 is x, a feedback of degree 1\nthe response has length 65\nits quotient is 9223372036854775808\nits remainder is 0\n";
    assert!(rt; says(heap, b"2", bits.as_slice(), fits)?);
    bits.push(b'1')?;
    let long =
        "2 is x, a feedback of degree 1\nthe response has length 66\nits quotient is too long for 64 bits\nits remainder is 1\n";
    assert!(rt; says(heap, b"2", bits.as_slice(), long)?);
    Ok(())
}

#[test]
fn a_bad_argument_is_named(rt: HostRuntime) -> Result<(), Fail> {
    let heap = rt.alloc();
    assert!(rt; matches!(explain(heap, b"", b"1"), Err(ExplainError::BadCode)));
    assert!(rt; matches!(explain(heap, b"+19", b"2"), Err(ExplainError::BadCode)));
    assert!(rt; matches!(explain(heap, b"19", b"102"), Err(ExplainError::BadBits)));
    Ok(())
}

#[test]
fn an_error_says_what_is_wrong(rt: HostRuntime) -> Result<(), Fail> {
    let heap = rt.alloc();
    for (error, said) in [
        (
            ExplainError::BadCode,
            "CODE must be a decimal number, as 19 for x^4 + x + 1",
        ),
        (
            ExplainError::BadBits,
            "BITS must be zeros and ones, the bit of clock 0 first",
        ),
        (ExplainError::OutOfMemory, "memory allocation failed"),
    ] {
        assert!(rt; error.to_string(heap)?.as_str() == said);
    }
    Ok(())
}

#[test]
fn a_polynomial_is_written_by_its_powers(rt: HostRuntime) -> Result<(), Fail> {
    let heap = rt.alloc();
    for (code, written) in [
        (0, ""),
        (1, "1"),
        (2, "x"),
        (3, "x + 1"),
        (19, "x^4 + x + 1"),
        (1 << 31, "x^31"),
    ] {
        assert!(rt; Polynomial { code }.to_string(heap)?.as_str() == written);
        assert!(rt; spell(heap, code)?.as_str() == written);
    }
    Ok(())
}
