//! The laws of a dialect, each called at one of the dialects.

use dialect::laws::{
    frames_read_back, orders_tell_legs_apart, reports_tell_apart, writable_messages_are_framed,
    writable_messages_fit,
};
use dialect::{AnyDialect, Coded, Plain, Split4};

#[test]
fn the_laws_of_a_dialect() {
    orders_tell_legs_apart(&Plain);
    reports_tell_apart(&Split4);
    frames_read_back(&Coded);
    writable_messages_are_framed(&AnyDialect::Plain);
    writable_messages_fit(&Plain);
}
