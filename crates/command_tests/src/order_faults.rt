//! The faults of reading an order from bytes.

use dialect::{AnyDialect, DialectFault};
use fix_tags::TagFault;
use order_command::{OrderFault, read_order_frame, stream_of};
use std::alloc::{AllocError, Global};
use std::test::Fail;

/// What is wrong with the first frame of these bytes, with `|` for SOH, if it is no order in this dialect.
fn fault_of(
    alloc: Global,
    dialect: AnyDialect,
    shown: &str,
) -> Result<Option<OrderFault>, AllocError> {
    let bytes = shown.replace(alloc, "|", "\x01")?;
    let stream = stream_of(alloc, bytes.as_bytes())?;
    Ok(read_order_frame(&dialect, stream).err())
}

/// The worked order of sweep 12, leg 3, in Plain.
const WORKED: &str =
    "8=FIX.4.4|9=124|35=D|49=A|56=B|34=4|52=20240102-14:30:00.000|11=S12L3|18=f|38=100|40=2|44=10.25|54=1|55=BRK.B|59=3|60=20240102-14:30:00.000|10=112|";

/// Bytes, and what is wrong with them in Plain.
const FAULTS: [(&str, OrderFault); 13] = [
    // No whole valid frame.
    ("", OrderFault::NoFrame),
    ("order", OrderFault::NoFrame),
    // The order without its last byte.
    (
        "8=FIX.4.4|9=124|35=D|49=A|56=B|34=4|52=20240102-14:30:00.000|11=S12L3|18=f|38=100|40=2|44=10.25|54=1|55=BRK.B|59=3|60=20240102-14:30:00.000|10=112",
        OrderFault::NoFrame,
    ),
    // With another CheckSum (10).
    (
        "8=FIX.4.4|9=124|35=D|49=A|56=B|34=4|52=20240102-14:30:00.000|11=S12L3|18=f|38=100|40=2|44=10.25|54=1|55=BRK.B|59=3|60=20240102-14:30:00.000|10=113|",
        OrderFault::NoFrame,
    ),
    // Fields that are none of a message: without a sender.
    (
        "8=FIX.4.4|9=119|35=D|56=B|34=4|52=20240102-14:30:00.000|11=S12L3|18=f|38=100|40=2|44=10.25|54=1|55=BRK.B|59=3|60=20240102-14:30:00.000|10=136|",
        OrderFault::NoMessage(TagFault::Missing(49)),
    ),
    // Under the number 0.
    (
        "8=FIX.4.4|9=124|35=D|49=A|56=B|34=0|52=20240102-14:30:00.000|11=S12L3|18=f|38=100|40=2|44=10.25|54=1|55=BRK.B|59=3|60=20240102-14:30:00.000|10=108|",
        OrderFault::NoMessage(TagFault::BadField(34)),
    ),
    // A message of another kind: a report on a trade.
    (
        "8=FIX.4.4|9=122|35=8|49=B|56=A|34=4|52=20240102-14:30:00.000|37=O1|17=E2|150=F|39=1|11=S1L1|55=BRK.B|54=1|32=60|31=10.25|151=40|14=60|6=0|10=163|",
        OrderFault::NoOrder,
    ),
    // A Logout.
    (
        "8=FIX.4.4|9=45|35=5|49=A|56=B|34=4|52=20240102-14:30:00.000|10=067|",
        OrderFault::NoOrder,
    ),
    // The order under the kind `DD`.
    (
        "8=FIX.4.4|9=125|35=DD|49=A|56=B|34=4|52=20240102-14:30:00.000|11=S12L3|18=f|38=100|40=2|44=10.25|54=1|55=BRK.B|59=3|60=20240102-14:30:00.000|10=181|",
        OrderFault::NoOrder,
    ),
    // An order that the dialect refuses: for no shares.
    (
        "8=FIX.4.4|9=122|35=D|49=A|56=B|34=4|52=20240102-14:30:00.000|11=S12L3|18=f|38=0|40=2|44=10.25|54=1|55=BRK.B|59=3|60=20240102-14:30:00.000|10=013|",
        OrderFault::BadOrder(DialectFault::Bad(38)),
    ),
    // Without its mark.
    (
        "8=FIX.4.4|9=119|35=D|49=A|56=B|34=4|52=20240102-14:30:00.000|11=S12L3|38=100|40=2|44=10.25|54=1|55=BRK.B|59=3|60=20240102-14:30:00.000|10=103|",
        OrderFault::BadOrder(DialectFault::NotMarked),
    ),
    // Good for the day.
    (
        "8=FIX.4.4|9=124|35=D|49=A|56=B|34=4|52=20240102-14:30:00.000|11=S12L3|18=f|38=100|40=2|44=10.25|54=1|55=BRK.B|59=0|60=20240102-14:30:00.000|10=109|",
        OrderFault::BadOrder(DialectFault::NotIoc),
    ),
    // Without TransactTime (60).
    (
        "8=FIX.4.4|9=99|35=D|49=A|56=B|34=4|52=20240102-14:30:00.000|11=S12L3|18=f|38=100|40=2|44=10.25|54=1|55=BRK.B|59=3|10=149|",
        OrderFault::BadOrder(DialectFault::Missing(60)),
    ),
];

#[test]
fn each_fault_of_bytes_that_are_no_order(rt: HostRuntime) -> Result<(), Fail> {
    for (shown, fault) in FAULTS {
        let found = fault_of(rt.alloc(), AnyDialect::Plain, shown)?;
        assert_eq!(rt; found, Some(fault), "at {shown}");
    }
    Ok(())
}

#[test]
fn an_order_of_one_dialect_is_none_of_another(rt: HostRuntime) -> Result<(), Fail> {
    for (dialect, fault) in [
        (AnyDialect::Plain, None),
        (
            AnyDialect::Coded,
            Some(OrderFault::BadOrder(DialectFault::Bad(11))),
        ),
    ] {
        assert_eq!(rt; fault_of(rt.alloc(), dialect, WORKED)?, fault);
    }
    Ok(())
}

#[test]
fn the_first_valid_frame_counts(rt: HostRuntime) -> Result<(), Fail> {
    let shown = format!(in rt.alloc(); "order8=FIX.4.4|9=5|35=5|10=000|{WORKED}8=FIX")?;
    let found = fault_of(rt.alloc(), AnyDialect::Plain, shown.as_str())?;
    assert_eq!(rt; found, None);
    Ok(())
}
