//! Messages are written behind one another.

ghost use Rattle.std.specs.Prelude.{[], ◌∷◌, OnOk};
ghost use Rattle.dialect.specs.Writable.{IsWritable};
ghost use Rattle.exchange_core.specs.Frames.{Writes};

use dialect::{Dialect, Outgoing, write_message};
use fix_tags::Stamp;
use std::alloc::{AllocError, Global};

/// Writes a message, and puts its frame behind the others.
#[tactic(auto, using(crate::proofs::Writing::writes_one))]
pub(crate) fn write<D: Dialect>(
    alloc: Global,
    dialect: &D,
    stamp: &Stamp,
    outgoing: &Outgoing<'_>,
    frames: &mut Vec<Vec<u8>>,
) -> Result<(), AllocError>
    requires { IsWritable outgoing.now }
    ensures { OnOk result (Writes (D.wording dialect.now).encoding
        stamp.now (outgoing.now ∷ []) frames.old.items frames.new.items) }
{
    let frame = write_message(alloc, dialect, stamp, outgoing)?;
    frames.push(frame)?;
    Ok(())
}
