//! A case file that is played, and texts that stand for bytes.

use case_text::{Answers, PlayFault, Player, bytes_of, flag, frame_of, number, play, shown, words};
use std::alloc::Global;
use std::test::Fail;

/// Adds numbers up, sends what it hears, and tells a flag.
#[derive(Drop)]
struct Adder {
    alloc: Global,
    sum: u64,
}

impl Player for Adder {
    fn begin(&mut self) -> Result<(), PlayFault> {
        self.sum = 0;
        Ok(())
    }

    fn command(&mut self, line: &str, answers: &mut Answers) -> Result<(), PlayFault> {
        match words(self.alloc, line)?.as_slice() {
            [only] if flag(only)? => answers.say("yes"),
            ["add", word] => {
                self.sum = self.sum.saturating_add(number(word)?);
                answers.say(&format!(in self.alloc; "{}", self.sum)?)
            }
            ["<", text] => {
                let fields = bytes_of(self.alloc, text)?;
                answers.send(&frame_of(self.alloc, &fields)?)
            }
            _ => Err(PlayFault::NotUnderstood),
        }
    }
}

const WANTED: &str = "# A comment.

case adds
shows sums
add 1
= 1
add 2
= 3
case sends
add 4
= 4
< 35=0|58=\\xff\\|\\\\|
> 35=0|58=\\xff\\|\\\\|
< 35=0
> !8=FIX.4.4|9=4|35=010=161|
Y
= yes
";

#[test]
fn what_is_as_wanted_is_written_again(rt: HostRuntime) -> Result<(), Fail> {
    let alloc = rt.alloc();
    let mut adder = Adder { alloc, sum: 7 };
    let mut out = Vec::new(alloc);
    play(alloc, WANTED.as_bytes(), &mut out, &mut adder)?;
    assert_eq!(rt; String::from_utf8(out)?.as_str(), WANTED);
    Ok(())
}

#[test]
fn what_differs_is_written_as_it_is(rt: HostRuntime) -> Result<(), Fail> {
    let alloc = rt.alloc();
    let mut adder = Adder { alloc, sum: 0 };
    let mut out = Vec::new(alloc);
    let text = "add 1\n= 2\nadd 01\n= 1\nadd +1\n< \\x1\nN\n! not understood\n";
    play(alloc, text.as_bytes(), &mut out, &mut adder)?;
    let written =
        "add 1\n= 1\nadd 01\n! not understood\nadd +1\n! not understood\n< \\x1\n! not understood\nN\n! not understood\n! not understood\n! not understood\n";
    assert_eq!(rt; String::from_utf8(out)?.as_str(), written);
    Ok(())
}

#[test]
fn text_of_bytes(rt: HostRuntime) -> Result<(), Fail> {
    let alloc = rt.alloc();
    assert_eq!(rt;
        shown(alloc, b"a\x01\x00|\\~\x7f")?.as_str(),
        "a|\\x00\\|\\\\~\\x7f"
    );
    let bytes = bytes_of(alloc, "a|\\x00\\|\\\\~\\x7f")?;
    assert_eq!(rt; bytes.as_slice(), b"a\x01\x00|\\~\x7f".as_slice());
    for text in ["\\", "\\x", "\\x0", "\\xFF", "\\a"] {
        assert_eq!(rt; bytes_of(alloc, text).err(), Some(PlayFault::NotUnderstood));
    }
    Ok(())
}
