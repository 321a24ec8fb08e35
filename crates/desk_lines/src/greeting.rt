//! What a client says first: by which token it is known.

ghost use Rattle.std.specs.Prelude.{◌≡◌, option_map};
ghost use Rattle.desk_lines.specs.Token.{token_in, user_of};

use crate::user::{User, user_with};
use desk_floor::{TalkFault, Voice};
use desk_talk::{Guest, InputLines, Next, Rights, Said};
use std::io::{Read, Write};
use std::sync::Wait;
use std::thread;
use std::time::{Clock, Duration};

/// How many seconds a client may take to say its token, in however many pieces.
const TOKEN_SECONDS: u64 = 10;

/// How many milliseconds a wrong token waits for its answer, so that guesses are slow.
const WRONG_MILLIS: u64 = 1_000;

/// The token that a line names, as `token WORD`.
fn token_in(line: &[u8]) -> Option<&[u8]>
    ensures { option_map (λ token. token.now) result ≡ token_in line.now }
{
    if !line.starts_with(b"token ") {
        return None;
    }
    Some(&line[6..])
}

/// The place of the user whose token a first line names, if it names one's.
fn user_of(users: &[User], line: &[u8]) -> Option<usize>
    ensures { result ≡ user_of users.now line.now }
{
    user_with(users, token_in(line)?)
}

/// Whether a client's first line came in time.
fn has_first_line<I: Read + Drop>(
    rt: &impl Clock,
    lines: &mut InputLines<I>,
) -> Result<bool, TalkFault> {
    let most = Duration::from_secs(TOKEN_SECONDS);
    let Ok(begun) = rt.monotonic() else {
        return Ok(false);
    };
    let mut left = most;
    for _ in 0..u64::MAX {
        match lines.next(left)? {
            Next::Line => return Ok(true),
            Next::Part => {}
            Next::Nothing | Next::End => return Ok(false),
        }
        let Ok(now) = rt.monotonic() else {
            return Ok(false);
        };
        left = most.saturating_sub(now.saturating_sub(begun));
        if left.is_zero() {
            break;
        }
    }
    Ok(false)
}

/// Who a client is, once it has said its token, if one is asked for; none where it is refused, as it is told.
pub(crate) fn greeted<'u, V: Write + Drop, I: Read + Drop, R: Wait + Clock>(
    rt: &R,
    users: &'u [User],
    voice: &Voice<V>,
    lines: &mut InputLines<I>,
) -> Result<Option<Guest<'u>>, TalkFault> {
    if users.is_empty() {
        return Ok(Some(Guest {
            name: None,
            may: Rights::ALL,
        }));
    }
    if !has_first_line(rt, lines)? || token_in(lines.line()).is_none() {
        voice.say(rt, &Said::NoToken)?;
        return Ok(None);
    }
    let known = match user_of(users, lines.line()) {
        Some(place) => users.get(place),
        None => None,
    };
    let Some(user) = known else {
        thread::sleep(rt, Duration::from_millis(WRONG_MILLIS));
        voice.say(rt, &Said::WrongToken)?;
        return Ok(None);
    };
    voice.say(rt, &Said::Known(&user.name))?;
    Ok(Some(Guest {
        name: Some(&user.name),
        may: user.may,
    }))
}
