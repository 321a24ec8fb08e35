//! The name of a dialect.

ghost use Rattle.std.specs.Prelude.{◌≡◌};
ghost use Rattle.dialect.specs.DialectName.{dialect_named};

use dialect::AnyDialect;
use std::str;

/// The dialect of a name.
#[tactic(auto, using(crate::proofs::Names::no_dialect))]
pub(crate) fn dialect_named(name: &[u8]) -> Option<AnyDialect>
    ensures { result ≡ dialect_named name.now }
{
    match str::from_utf8(name) {
        Ok(name) => AnyDialect::named(name),
        Err(_) => None,
    }
}
