//! The ids that an exchange makes: a letter and a number.

ghost use Rattle.std.specs.Prelude.{◌≡◌, ◌≤◌, ◌∷◌, decimal};
ghost use Rattle.exchange_core.specs.Acts.{test_id};
ghost use Rattle.exchange_core.specs.Order.{order_id};
ghost use Rattle.exchange_core.specs.SentRecord.{exec_id};

use arrayvec::ArrayVec;
use dialect::{ExecId, FreeText, MAX_ID, OrderId};
use itoa::Buffer;

/// The id of an order by its place among the accepted ones: OrderID (37).
pub(crate) fn id_of_order(place: u64) -> OrderId
    requires { place ≤ 999999999 }
    ensures { result ≡ order_id place }
{
    numbered_id(b'O', place)
}

/// The id of a report by the count of the reports made, this one included: ExecID (17).
pub(crate) fn id_of_report(count: u64) -> ExecId
    requires { count ≤ 999999999 }
    ensures { result ≡ exec_id count }
{
    numbered_id(b'E', count)
}

/// The id of a TestRequest by its number: TestReqID (112).
pub(crate) fn id_of_test(number: u64) -> FreeText<MAX_ID>
    requires { number ≤ 999999999 }
    ensures { result ≡ test_id number }
{
    numbered_id(b'X', number)
}

/// A letter and a number.
fn numbered_id(letter: u8, number: u64) -> FreeText<MAX_ID>
    requires letter { 2 ≤ letter }
    requires number { number ≤ 999999999 }
    ensures { result ≡ letter ∷ decimal number }
{
    let mut digits = Buffer::new();
    let mut text = ArrayVec::<u8, MAX_ID>::new();
    text.push(letter);
    text.try_extend_from_slice(digits.format(number).as_bytes())
        .unwrap();
    FreeText::new(text.as_slice()).unwrap()
}
