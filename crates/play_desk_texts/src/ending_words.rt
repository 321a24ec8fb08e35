//! Why a connection ended, from the words of a case.

use case_text::{PlayFault, bytes_of};
use desk_news::{Cause, Told};
use desk_words::shown;
use session_core::Ended;
use std::alloc::Global;

/// The ending of a code.
fn ended(code: &str) -> Result<Ended, PlayFault> {
    match code {
        "E01" => Ok(Ended::FirstNotLogon),
        "E02" => Ok(Ended::TooLow),
        "E03" => Ok(Ended::WrongComp),
        "E04" => Ok(Ended::ResetRefused),
        "E05" => Ok(Ended::ResendInDoubt),
        "E06" => Ok(Ended::BadResend),
        "E07" => Ok(Ended::PeerLogout),
        "E08" => Ok(Ended::LogonAgain),
        "E09" => Ok(Ended::BadGapFill),
        "E10" => Ok(Ended::Silent),
        "E11" => Ok(Ended::Malformed),
        "E12" => Ok(Ended::LogoutDone),
        "E13" => Ok(Ended::BadNextExpected),
        "E14" => Ok(Ended::PeerForgot),
        _ => Err(PlayFault::NotUnderstood),
    }
}

/// A text of others as it is shown.
pub fn told(alloc: Global, text: &str) -> Result<Told, PlayFault> {
    let bytes = bytes_of(alloc, text)?;
    Ok(shown(&bytes))
}

/// Why a connection ended, of `E10`, `E07 TEXT` or `lost WHY`.
pub fn cause(alloc: Global, text: &str) -> Result<Cause, PlayFault> {
    match text.split_once(' ') {
        Some(("lost", why)) => Ok(Cause::Lost(told(alloc, why)?)),
        Some((code, text)) => {
            let ended = ended(code)?;
            let text = told(alloc, text)?;
            Ok(Cause::Said { ended, text })
        }
        None => ended(text).map(Cause::Ended),
    }
}
