//! How far a session has come.

ghost use Rattle.std.specs.Prelude.{◌≡◌};

/// How far a session has come in its present connection.
#[derive(Clone, Copy, Debug, PartialEq, Eq)]
pub enum Phase {
    /// There is no connection.
    Down,
    /// The Logon was written, and none was received.
    LoggingOn,
    /// Both have logged on. Which of the legs sent before were lost isn't known yet.
    Settling,
    /// Every leg of earlier connections is settled, and legs may be sent.
    Up,
    /// The close was asked, and the fence that goes before it isn't answered yet.
    Closing,
    /// The Logout was written, and no leg is in doubt.
    LoggedOut,
    /// The session has ended for good.
    Closed,
}

impl Phase {
    ghost use Rattle.session_core.specs.Session.{is_connected, is_still, is_logging_on, is_settling, is_logged_out};
    ghost use Rattle.session_core.specs.Turn.{phase_after};

    /// Whether there is a connection.
    pub fn is_connected(self) -> bool
        ensures { result ≡ is_connected self }
    {
        match self {
            Phase::Down => false,
            Phase::Closed => false,
            Phase::LoggingOn => true,
            Phase::Settling => true,
            Phase::Up => true,
            Phase::Closing => true,
            Phase::LoggedOut => true,
        }
    }

    /// Whether `quiet` and `silent` write nothing: before the exchange's Logon, and after the session's own Logout.
    pub fn is_still(self) -> bool
        ensures { result ≡ is_still self }
    {
        match self {
            Phase::LoggingOn => true,
            Phase::LoggedOut => true,
            Phase::Down => false,
            Phase::Settling => false,
            Phase::Up => false,
            Phase::Closing => false,
            Phase::Closed => false,
        }
    }

    /// Whether the Logon was written, and none was received.
    pub fn is_logging_on(self) -> bool
        ensures { result ≡ is_logging_on self }
    {
        match self {
            Phase::LoggingOn => true,
            Phase::Down => false,
            Phase::Settling => false,
            Phase::Up => false,
            Phase::Closing => false,
            Phase::LoggedOut => false,
            Phase::Closed => false,
        }
    }

    /// Whether legs of earlier connections aren't settled yet.
    pub fn is_settling(self) -> bool
        ensures { result ≡ is_settling self }
    {
        match self {
            Phase::Settling => true,
            Phase::Down => false,
            Phase::LoggingOn => false,
            Phase::Up => false,
            Phase::Closing => false,
            Phase::LoggedOut => false,
            Phase::Closed => false,
        }
    }

    /// Whether the session's Logout was written.
    pub fn is_logged_out(self) -> bool
        ensures { result ≡ is_logged_out self }
    {
        match self {
            Phase::LoggedOut => true,
            Phase::Down => false,
            Phase::LoggingOn => false,
            Phase::Settling => false,
            Phase::Up => false,
            Phase::Closing => false,
            Phase::Closed => false,
        }
    }

    /// The phase after a connection. The session `is_over` where the exchange logged out first; it is too where its own
    /// Logout was written.
    pub(crate) fn after(self, is_over: bool) -> Phase
        ensures { result ≡ phase_after is_over self }
    {
        if is_over || self.is_logged_out() {
            Phase::Closed
        } else {
            Phase::Down
        }
    }
}
