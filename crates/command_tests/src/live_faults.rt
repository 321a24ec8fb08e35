//! The faults of a day that no command line brings about: their texts and statuses.

use command_line::tell;
use live_command::CommandFault;
use std::test::Fail;

#[test]
fn each_fault_of_a_day_has_its_text_and_status(rt: HostRuntime) -> Result<(), Fail> {
    let cases: [(CommandFault, u8, &[u8]); 7] = [
        (CommandFault::NoSocket, 4, b"dispatch: no socket\n"),
        (CommandFault::NoThread, 4, b"dispatch: no thread\n"),
        (
            CommandFault::NoAnswer,
            4,
            b"dispatch: no exchange answered\n",
        ),
        (CommandFault::OutOfMemory, 5, b"dispatch: out of memory\n"),
        (CommandFault::MismatchQueue, 6, b"dispatch: audit A01\n"),
        (CommandFault::MismatchShares, 6, b"dispatch: audit A02\n"),
        (CommandFault::MismatchPlaced, 6, b"dispatch: audit A03\n"),
    ];
    for (fault, status, text) in &cases {
        let mut err = Vec::new(rt.alloc());
        assert_eq!(rt; tell(fault, &mut err), *status);
        assert_eq!(rt; err.as_slice(), *text);
    }
    Ok(())
}
