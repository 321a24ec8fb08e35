//! Legs by their numbers.

ghost use Rattle.std.specs.Prelude.{◌≡◌, ◌++◌, map, OnOk, IfOk, string_bytes};
ghost use Rattle.leg.specs.LegId.{leg_id_text};
ghost use Rattle.schedule.specs.Printed.{spaced, legs_text};

use leg::LegId;
use std::alloc::{AllocError, Global};

/// Legs by their numbers, as `[S1L1 S1L2]`.
pub fn leg_list(alloc: Global, ids: &[LegId]) -> Result<String, AllocError>
    ensures { IfOk result (λ text. string_bytes text ≡ legs_text ids.now) }
{
    let mut text = String::new(alloc);
    text.push_str("[")?;
    write_spaced(&mut text, ids)?;
    text.push_str("]")?;
    Ok(text)
}

/// Appends the numbers of legs, with a space between any two.
fn write_spaced(text: &mut String, ids: &[LegId]) -> Result<(), AllocError>
    ensures { OnOk result (string_bytes text.new ≡ string_bytes text.old ++ spaced (map leg_id_text ids.now)) }
{
    let [first, others @ ..] = ids else {
        return Ok(());
    };
    write!(text, "{first}")?;
    for id in others {
        write!(text, " {id}")?;
    }
    Ok(())
}
