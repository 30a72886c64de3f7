use refusal::{Ground, Refusal};
use rows::{AnswerRow, FieldFault, Request, Row, RowFault};

#[test]
fn rows_are_read(rt: HostRuntime) {
    assert_eq!(rt;
        Request::read(b"Y      2026\n"),
        Ok(Request::CalendarYear { year: 2026 })
    );
    assert_eq!(rt;
        Request::read(b"C         19999999999\n"),
        Ok(Request::Cost {
            system: 1,
            euros: 9_999_999_999,
        })
    );
    assert_eq!(rt; Request::read(b"Z\n"), Ok(Request::Settle));
}

#[test]
fn the_first_fault_is_told(rt: HostRuntime) {
    assert_eq!(rt; Request::read(b"\n"), Err(RowFault::Letter));
    assert_eq!(rt; Request::read(b"P         1"), Err(RowFault::Length));
    assert_eq!(rt;
        Request::read(b"S        0x        05\n"),
        Err(RowFault::Field(FieldFault { place: 1 }))
    );
    assert_eq!(rt;
        Request::read(b"S         7        05\n"),
        Err(RowFault::Field(FieldFault { place: 2 }))
    );
}

#[test]
fn writing_is_refused(rt: HostRuntime) {
    let request = Request::Cost {
        system: 1,
        euros: 10_000_000_000,
    };
    let mut short = [0u8; 61];
    assert_eq!(rt;
        request.write(&mut short),
        Err(Refusal::of(Ground::BufferTooSmall))
    );
    let mut buffer = [0u8; 62];
    assert_eq!(rt;
        request.write(&mut buffer),
        Err(Refusal::at(Ground::OutOfBounds, 2))
    );
}

#[test]
fn answers_are_read(rt: HostRuntime) {
    let refused = AnswerRow::Refused {
        ground: Ground::NoWeight,
        row: 3,
        place: 1,
    };
    assert_eq!(rt;
        AnswerRow::read(b"R        16         3         1\n"),
        Ok(refused)
    );
    assert_eq!(rt;
        AnswerRow::read(b"R        27         3         1\n"),
        Err(RowFault::Field(FieldFault { place: 1 }))
    );
}
