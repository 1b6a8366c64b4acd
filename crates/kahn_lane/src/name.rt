//! What the tokens of a lane are of.
//!
//! A lane knows that all its tokens are of one network, one input and one channel. These are named for contracts alone:
//! a `LaneName` is never made, and a `Tag` has only the bytes of its line and its number.

ghost use Rattle.std.specs.Prelude.{◌≡◌, ◌≤◌, ◌^◌};
ghost use Rattle.kahn_streams.specs.Inputs.{Names};

use kahn_streams::{About, Input, Line, Network};

/// A network, an input and a line. Only contracts use it: no value of it is made.
pub struct LaneName {
    pub network: Network,
    pub input: Input,
    pub line: Line,
}

/// What the tokens of a lane are of, and the place of the first of them.
#[derive(Drop)]
pub struct Tag {
    pub line: Line,
    pub from: u64,
    pub network: About<Network>,
    pub input: About<Input>,
    ghost limited: { from ≤ 2 ^ 48 },
}

/// The tag of a line from a place on, for the network and the input that the caller takes from two things at hand.
pub(crate) fn tag_by<X, Y>(_x: &X, _y: &Y, line: Line, from: u64) -> Tag
    ghost names: { Names }
    requires { from ≤ 2 ^ 48 }
    ensures here { (result.line ≡ line) × (result.from ≡ from) }
    ensures names { (result.network.value ≡ names.network) × (result.input.value ≡ names.input) }
{
    Tag {
        line,
        from,
        network: About::named(),
        input: About::named(),
    }
}
