use figure::show_number;
use reference::{Call, Refusal, Shown};
use replies::{Outcome, Refused, Reply, write_reply, write_row};
use script::{Opening, Record, first_line, read_record};
use std::alloc::AllocError;
use std::process::Abort;
use std::test::Fail;

#[test]
fn replies_are_written(rt: HostRuntime) -> Result<(), AllocError> {
    let mut text = String::new(rt.alloc());
    let shown = Shown {
        age: 2,
        touched: 4,
        laid: 5,
    };
    let refusal = Refusal::NoSurface(5);
    write_reply(
        &mut text,
        Reply {
            line: 1,
            outcome: Outcome::Done,
        },
    )?;
    write_reply(
        &mut text,
        Reply {
            line: 7,
            outcome: Outcome::Shown(shown),
        },
    )?;
    write_reply(
        &mut text,
        Reply {
            line: 8,
            outcome: Outcome::Refused(Refused::Panel(refusal)),
        },
    )?;
    write_reply(
        &mut text,
        Reply {
            line: 9,
            outcome: Outcome::Refused(Refused::NotARecord { place: 3 }),
        },
    )?;
    assert_eq!(rt;
        text.as_str(),
        "1\tdone\n7\tframe\t2\t4\t5\n8\trefused\tpanel\t4\t5\n9\trefused\tscript\t1\t3\n"
    );
    Ok(())
}

#[test]
fn rows_are_written(rt: HostRuntime) -> Result<(), AllocError> {
    let mut text = String::new(rt.alloc());
    write_row(&mut text, &[9, 1, 2, 255])?;
    write_row(&mut text, &[])?;
    assert_eq!(rt; text.as_str(), "090102ff\n\n");
    Ok(())
}

// The line is no record, and the field of this number is the first that is at fault.
fn no_record(rt: &impl Abort, line: &[u8], fault: usize) {
    assert_eq!(rt;
        read_record(line, 1),
        Err(Refused::NotARecord { place: fault })
    );
}

#[test]
fn records_are_read(rt: HostRuntime) {
    let order = show_number(-42);
    let tell = Call::Tell { surface: 1, order };
    assert_eq!(rt;
        read_record(b"tell\t1\t3\t-42\t0", 6),
        Ok(Record::Call(tell))
    );
    no_record(&rt, b"", 0);
    no_record(&rt, b"hide\t1", 0);
    no_record(&rt, b"remove", 1);
    no_record(&rt, b"remove\t+1", 1);
    no_record(&rt, b"remove\t1\t", 2);
    no_record(&rt, b"place\t0\t2147483648\t0", 2);
}

// The fields of an open.
fn opening(line: &[u8]) -> Result<Opening, Fail> {
    match read_record(line, 1) {
        Ok(Record::Open(opening)) => Ok(opening),
        _ => Err(Fail::new("not an open")),
    }
}

// The settings of an open are refused, and the field of this number is the first out of its range.
fn no_settings(rt: &impl Abort, line: &[u8], fault: usize) -> Result<(), Fail> {
    let settings = opening(line)?.settings();
    assert_eq!(rt; settings, Err(Refused::OutOfTurn { place: fault }));
    Ok(())
}

#[test]
fn an_open_gives_its_settings(rt: HostRuntime) -> Result<(), Fail> {
    let settings = opening(b"open\t4\t3\t9\t2")?
        .settings()
        .map_err(|_| Fail::new("no settings"))?;
    assert_eq!(rt; settings.width, 4);
    assert_eq!(rt; settings.height, 3);
    assert_eq!(rt; settings.base, 9);
    assert_eq!(rt; settings.buffers, 2);
    no_settings(&rt, b"open\t65\t0\t9\t2", 1)?;
    no_settings(&rt, b"open\t64\t0\t9\t2", 2)?;
    no_settings(&rt, b"open\t64\t64\t256\t2", 3)?;
    no_settings(&rt, b"open\t64\t64\t255\t5", 4)
}

#[test]
fn lines_end_at_line_feeds(rt: HostRuntime) {
    let (line, others) = first_line(b"show\n\nshow");
    assert!(rt; line == b"show".as_slice());
    let (line, others) = first_line(others);
    assert!(rt; line.is_empty());
    let (line, others) = first_line(others);
    assert!(rt; line == b"show".as_slice());
    assert!(rt; others.is_empty());
}
