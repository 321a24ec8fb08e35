//! How far a venue's session is, and its code on a board.

ghost use Rattle.std.specs.Prelude.{◌≡◌, ◌<◌, Some, None, IfSome, slice_get};
ghost use Rattle.venue_board.specs.Codes.{progresses};

use crate::loss::Loss;
use session_core::Ended;

/// How far a venue's session is.
#[derive(Clone, Copy, Debug, PartialEq, Eq)]
pub enum Progress {
    /// It is dialled for the first time: it was neither up yet nor has a dial failed.
    Dialled,
    /// It is up, and the venue's gate with it, unless the venue is held.
    Up,
    /// A dial failed, and another one follows.
    Unreachable,
    /// Its connection ended, and is dialled again.
    Down(Loss),
}

impl Progress {
    /// Its code, which tells it from each other one.
    pub(crate) fn code(self) -> u64
        ensures { slice_get progresses result ≡ Some self }
    {
        match self {
            Progress::Dialled => 0,
            Progress::Up => 1,
            Progress::Unreachable => 2,
            Progress::Down(Loss::PeerClosed) => 3,
            Progress::Down(Loss::ReadFailed) => 4,
            Progress::Down(Loss::WriteFailed) => 5,
            Progress::Down(Loss::OutOfMemory) => 6,
            Progress::Down(Loss::NumbersSpent) => 7,
            Progress::Down(Loss::Ended(Ended::FirstNotLogon)) => 8,
            Progress::Down(Loss::Ended(Ended::TooLow)) => 9,
            Progress::Down(Loss::Ended(Ended::WrongComp)) => 10,
            Progress::Down(Loss::Ended(Ended::ResetRefused)) => 11,
            Progress::Down(Loss::Ended(Ended::ResendInDoubt)) => 12,
            Progress::Down(Loss::Ended(Ended::BadResend)) => 13,
            Progress::Down(Loss::Ended(Ended::PeerLogout)) => 14,
            Progress::Down(Loss::Ended(Ended::LogonAgain)) => 15,
            Progress::Down(Loss::Ended(Ended::BadGapFill)) => 16,
            Progress::Down(Loss::Ended(Ended::Silent)) => 17,
            Progress::Down(Loss::Ended(Ended::Malformed)) => 18,
            Progress::Down(Loss::Ended(Ended::LogoutDone)) => 19,
            Progress::Down(Loss::Ended(Ended::BadNextExpected)) => 20,
            Progress::Down(Loss::Ended(Ended::PeerForgot)) => 21,
            Progress::Down(Loss::Parted) => 22,
        }
    }

    /// What a code stands for, if it stands for something: the codes go from 0 to 22.
    pub(crate) fn of_code(code: u64) -> Option<Progress>
        ensures known { IfSome result (λ progress. slice_get progresses code ≡ Some progress) }
        ensures unknown { result ≡ None → 22 < code }
    {
        match code {
            0 => Some(Progress::Dialled),
            1 => Some(Progress::Up),
            2 => Some(Progress::Unreachable),
            3 => Some(Progress::Down(Loss::PeerClosed)),
            4 => Some(Progress::Down(Loss::ReadFailed)),
            5 => Some(Progress::Down(Loss::WriteFailed)),
            6 => Some(Progress::Down(Loss::OutOfMemory)),
            7 => Some(Progress::Down(Loss::NumbersSpent)),
            8 => Some(Progress::Down(Loss::Ended(Ended::FirstNotLogon))),
            9 => Some(Progress::Down(Loss::Ended(Ended::TooLow))),
            10 => Some(Progress::Down(Loss::Ended(Ended::WrongComp))),
            11 => Some(Progress::Down(Loss::Ended(Ended::ResetRefused))),
            12 => Some(Progress::Down(Loss::Ended(Ended::ResendInDoubt))),
            13 => Some(Progress::Down(Loss::Ended(Ended::BadResend))),
            14 => Some(Progress::Down(Loss::Ended(Ended::PeerLogout))),
            15 => Some(Progress::Down(Loss::Ended(Ended::LogonAgain))),
            16 => Some(Progress::Down(Loss::Ended(Ended::BadGapFill))),
            17 => Some(Progress::Down(Loss::Ended(Ended::Silent))),
            18 => Some(Progress::Down(Loss::Ended(Ended::Malformed))),
            19 => Some(Progress::Down(Loss::Ended(Ended::LogoutDone))),
            20 => Some(Progress::Down(Loss::Ended(Ended::BadNextExpected))),
            21 => Some(Progress::Down(Loss::Ended(Ended::PeerForgot))),
            22 => Some(Progress::Down(Loss::Parted)),
            _ => None,
        }
    }
}
