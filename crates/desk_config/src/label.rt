//! What a desk is called.

use crate::user::UserName;

/// What a desk is called, as `EQ-1`, and where it trades, as `UAT`.
#[derive(Debug, Drop)]
pub struct Label {
    pub name: Option<UserName>,
    pub environment: Option<UserName>,
}
