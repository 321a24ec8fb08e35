//! What watches a day while it runs.

use live_load::{Progress, SoFar};
use readiness::Readiness;
use std::io::{IsTerminal, Write};
use std::time::Duration;

/// Writes how far a day is, if it writes to a terminal, and cuts the day short once there is something to read on an
/// input, or that ends.
#[derive(Drop)]
pub struct Watch<E> {
    screen: E,
    /// The input, if the day heeds one.
    input: Option<Readiness>,
}

impl<E> Watch<E> {
    pub fn new(screen: E, input: Option<Readiness>) -> Watch<E> {
        Watch { screen, input }
    }
}

impl<E: Write + IsTerminal> Progress for Watch<E> {
    fn tell(&mut self, so_far: SoFar) {
        if self.screen.is_terminal() {
            let SoFar { placed, resolved } = so_far;
            let _ = writeln!(
                self.screen,
                "dispatch: {placed} sweeps placed, {resolved} shares resolved"
            );
        }
    }

    fn is_stopped(&mut self) -> bool {
        match &mut self.input {
            Some(input) => input.wait(Duration::from_millis(0)),
            None => false,
        }
    }
}
