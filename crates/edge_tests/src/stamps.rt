//! Stamps of moments that `date -u` tells, and a clock that can't be read.

use clock::{Clock, UtcClock, stamp_at};
use fix_tags::stamp_bytes;
use jiff::Timestamp;
use std::cell::Cell;
use std::test::Fail;
use std::time::Duration;
use std::{io, time};

#[test]
fn stamps_of_seconds(rt: HostRuntime) -> Result<(), Fail> {
    for (second, want) in [
        (1_704_205_800, "20240102-14:30:00.000"),
        (951_782_400, "20000229-00:00:00.000"),
        (0, "19700101-00:00:00.000"),
        (-86_400, "19691231-00:00:00.000"),
        (-62_167_219_200, "00000101-00:00:00.000"),
    ] {
        let stamp = stamp_at(Timestamp::from_second(second)?).ok_or("a stamp")?;
        assert_eq!(rt; stamp_bytes(&stamp).as_slice(), want.as_bytes());
    }
    assert!(rt; stamp_at(Timestamp::from_second(-62_167_219_201)?).is_none());
    Ok(())
}

#[test]
fn a_stamp_is_cut(rt: HostRuntime) -> Result<(), Fail> {
    for (nanosecond, want) in [
        (1_704_205_800_123_999_999, "20240102-14:30:00.123"),
        (999_999, "19700101-00:00:00.000"),
        (1_000_000, "19700101-00:00:00.001"),
        (-1, "19691231-23:59:59.999"),
    ] {
        let stamp = stamp_at(Timestamp::from_nanosecond(nanosecond)?).ok_or("a stamp")?;
        assert_eq!(rt; stamp_bytes(&stamp).as_slice(), want.as_bytes());
    }
    Ok(())
}

// Reads two moments, can't be read, reads one that has no stamp, and then only one before the first.
#[derive(Drop)]
struct Ticking {
    readings: Cell<u32>,
}

impl time::Clock for Ticking {
    fn monotonic(&self) -> io::Result<Duration> {
        Err(io::Error::from(io::ErrorKind::Unsupported))
    }

    fn since_1970(&self) -> io::Result<Duration> {
        let reading = self.readings.get().saturating_add(1);
        self.readings.set(reading);
        match reading {
            1 => Ok(Duration::from_millis(1_704_205_800_500)),
            2 => Ok(Duration::from_millis(1_704_205_801_000)),
            3 => Err(io::Error::from(io::ErrorKind::Unsupported)),
            4 => Ok(Duration::from_secs(1 << 62)),
            _ => Ok(Duration::from_millis(1_704_205_799_000)),
        }
    }
}

#[test]
fn a_clock_that_cant_be_read_tells_its_last_stamp(rt: HostRuntime) -> Result<(), Fail> {
    let time = Ticking {
        readings: Cell::new(0),
    };
    let mut clock = UtcClock::new(&time);
    for want in [
        "20240102-14:30:00.500",
        "20240102-14:30:01.000",
        "20240102-14:30:01.000",
        "20240102-14:30:01.000",
        "20240102-14:29:59.000",
    ] {
        assert_eq!(rt; stamp_bytes(&clock.now()).as_slice(), want.as_bytes());
    }
    let time = Ticking {
        readings: Cell::new(2),
    };
    let first = UtcClock::new(&time).now();
    assert_eq!(rt;
        stamp_bytes(&first).as_slice(),
        b"19700101-00:00:00.000".as_slice()
    );
    assert!(rt; UtcClock::new(&rt).now() != first);
    Ok(())
}
