//! What went over a dressed link as its caller gave and got it, for contracts alone.

ghost use Rattle.std.specs.Prelude.{◌≡◌, List, []};
ghost use Rattle.link.specs.Traffic.{Traffic};
ghost use Rattle.link.specs.Told.{traffic_coded, begun, with_written, with_read};
ghost use base.Fml.{ftrue};

use std::marker::Model;

/// What was taken and given of each connection, undressed. It takes no byte: contracts alone see it.
#[derive(Drop)]
pub(crate) struct Told {
    ghost traffic: { List Traffic } by { traffic_coded },
}

impl Model for Told {
    ghost also_owns = { λ _. ftrue };
}

impl Told {
    /// Nothing was dialled yet.
    pub(crate) fn new() -> Told
        ensures { result.traffic ≡ [] }
    {
        Told {}
    }

    /// A new connection is there.
    pub(crate) fn dialled(&self) -> Told
        ensures { result.traffic ≡ begun self.now.traffic }
    {
        Told {}
    }

    /// The connection took these bytes.
    pub(crate) fn wrote(&self, _bytes: &[u8]) -> Told
        ensures { result.traffic ≡ with_written _bytes.now self.now.traffic }
    {
        Told {}
    }

    /// The connection gave these bytes.
    pub(crate) fn gave(&self, _bytes: &[u8]) -> Told
        ensures { result.traffic ≡ with_read _bytes.now self.now.traffic }
    {
        Told {}
    }
}

unsafe impl Send for Told {}
