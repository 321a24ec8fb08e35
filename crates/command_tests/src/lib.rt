//! Tests of the commands of the program where no command line can say it.
#![tactic(auto)]

#[cfg(test)]
mod fake_clock;
#[cfg(test)]
mod live_faults;
#[cfg(test)]
mod order_faults;
#[cfg(test)]
mod order_moment;
#[cfg(test)]
mod replay_input;
