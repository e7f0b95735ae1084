// Numbers in columns, and the printed line of a refusal.
use column::Column;
use refusal::{Layer, Refusal};
use std::test::Fail;

#[test]
fn a_line_has_layer_number_and_places(rt: HostRuntime) -> Result<(), Fail> {
    let heap = rt.alloc();
    let refusal = Refusal::NotANumber {
        line: 12,
        column: 8,
    };
    assert_eq!(rt; refusal.number(), 5);
    assert_eq!(rt; refusal.layer(), Layer::Field);
    assert_eq!(rt; refusal.places(), (12, 8));
    assert_eq!(rt;
        refusal.line(heap)?.as_str(),
        "X        1        5       12        8\n"
    );
    assert_eq!(rt;
        Refusal::NotAFeedback.line(heap)?.as_str(),
        "X        5       17        0        0\n"
    );
    Ok(())
}

// A place of more than nine digits widens its column, so that nothing is lost.
#[test]
fn a_long_place_is_written_whole(rt: HostRuntime) -> Result<(), Fail> {
    let refusal = Refusal::NothingFiled {
        place: 12_345_678_901,
    };
    assert_eq!(rt;
        refusal.line(rt.alloc())?.as_str(),
        "X        6       2312345678901        0\n"
    );
    Ok(())
}

#[test]
fn a_number_stands_at_the_right(rt: HostRuntime) -> Result<(), Fail> {
    let heap = rt.alloc();
    assert_eq!(rt;
        Column {
            width: 6,
            value: 42,
        }
        .text(heap)?
        .as_str(),
        "    42"
    );
    assert_eq!(rt; Column { width: 1, value: 0 }.text(heap)?.as_str(), "0");
    assert_eq!(rt;
        Column {
            width: 2,
            value: u64::MAX,
        }
        .text(heap)?
        .as_str(),
        "18446744073709551615"
    );
    Ok(())
}
