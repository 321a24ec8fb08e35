//! A link that dresses what is written over it.

ghost use Rattle.std.specs.Prelude.{◌≡◌, [], IfSome, if◌then◌else◌, Some, None};
ghost use Rattle.dressed_link.specs.Dressing.{is_bare};
ghost use Rattle.dressed_link.specs.Links.{Carries, dress_on, faults_over, wire_over};

use crate::dress::Dress;
use crate::dresser::Dresser;
use link::{Got, Link, LinkFault};
use std::alloc::Global;
use std::time::Duration;

/// A link that puts a dress on each frame that is written, and writes the frame to another link. Its own traffic is
/// what its caller wrote and read. With a bare dress it hands on each call, and copies nothing.
#[derive(Drop)]
pub struct DressedLink<K: Link> {
    link: K,
    dresser: Option<Dresser>,
}

impl<K: Link> DressedLink<K> {
    /// A link over one that wasn't dialled yet.
    pub fn new(alloc: Global, link: K, dress: Dress) -> DressedLink<K>
        requires { IfSome (K.wire link) (λ traffic. traffic ≡ []) }
        ensures link { result.link ≡ link }
        ensures dress { dress_on result.dresser ≡ (if is_bare dress then None else Some dress) }
        ensures carries { Carries result.dresser (K.wire result.link) }
        ensures wire { wire_over result.dresser (K.wire link) ≡ K.wire link }
    {
        let dresser = if dress.is_bare() {
            None
        } else {
            Some(Dresser::new(alloc, dress))
        };
        DressedLink { link, dresser }
    }
}

impl<K: Link> Link for DressedLink<K> {
    ghost wire = { λ dressed. wire_over dressed.dresser (K.wire dressed.link) };

    ghost fault_count = { λ dressed. faults_over dressed.dresser (K.fault_count dressed.link) };

    fn dial(&mut self) -> Result<(), LinkFault> {
        match &mut self.dresser {
            Some(dresser) => dresser.dial(&mut self.link),
            None => self.link.dial(),
        }
    }

    fn read(&mut self, buf: &mut [u8]) -> Result<Got, LinkFault> {
        match &mut self.dresser {
            Some(dresser) => dresser.read(&mut self.link, buf),
            None => self.link.read(buf),
        }
    }

    fn heard(&mut self, left: usize) {
        self.link.heard(left);
    }

    fn came_up(&mut self) {
        self.link.came_up();
    }

    fn write(&mut self, bytes: &[u8]) -> Result<usize, LinkFault> {
        match &mut self.dresser {
            Some(dresser) => dresser.write(&mut self.link, bytes),
            None => self.link.write(bytes),
        }
    }

    fn rest(&mut self, most: Duration) {
        if let Some(dresser) = &self.dresser {
            // The next read writes it, or answers why it can't.
            if dresser.is_pending() {
                return;
            }
        }
        self.link.rest(most);
    }

    fn shut(&mut self) -> Result<(), LinkFault> {
        match &mut self.dresser {
            Some(dresser) => dresser.shut(&mut self.link),
            None => self.link.shut(),
        }
    }

    fn faults(&self) -> u64 {
        let below = self.link.faults();
        match &self.dresser {
            Some(dresser) => below.saturating_add(dresser.faults()),
            None => below,
        }
    }
}
