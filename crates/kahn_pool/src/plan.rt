//! What the parts of a run are lent.

ghost use Rattle.std.specs.Prelude.{◌≡◌};

use kahn_code::Code;
use kahn_crew::Crewing;
use kahn_streams::{Input, Network};

/// A part of a run: the network, its input so far, its code, who works on it, the sum of all bounds with this part's bound, and how
/// many events are left of that sum.
#[derive(Drop)]
pub(crate) struct RunPart<'n> {
    pub(crate) network: &'n Network,
    pub(crate) input: &'n Input,
    pub(crate) code: &'n Code,
    pub(crate) crew: Crewing,
    pub(crate) bound: u64,
    pub(crate) left: u64,
    ghost fits: { code.now.network.value ≡ network.now },
}
