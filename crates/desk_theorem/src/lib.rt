//! The sweep theorem of a day that `dispatch run` or `dispatch live` prints: it holds of each of its venues, by the
//! bytes on the venue's link, whatever exchange is at the other end.
//!
//! Promises:
//! - `laws::every_venue_of_a_desk_day_is_safe_by_its_bytes`: where a day is told as `run_day` of `desk_run` without a
//!   journal and `run_live` of `live_load` tell one (`IsDeskDay`), the worker of each venue ran from its venue's start,
//!   and its run is safe by its bytes (`IsSafeByBytes` of `worker_line`), with the legs that the audited desk released
//!   to the venue, and in the audited book.
//! - `laws::every_venue_of_a_desk_day_of_several_lives_is_safe_by_its_bytes`: where a day may have had lives before, as
//!   `run_day` tells one (`IsDayOver`), the worker of each venue began with what its journal's lines say, and the venue
//!   is safe over all lives (`IsSafeOverLives` of `worker_restart`).
//! - Not said: what no contract carries, `docs/believe.md`, stop 12.
//!
//! See `docs/theorem.md`, "Of a running worker".
#![tactic(auto)]

pub mod laws;
