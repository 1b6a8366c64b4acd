//! What a network keeps of a declared channel beside its name.

use crate::sides::Side;
use crate::tree::{Kind, Role};

/// The kind and role of a declared channel, and where its two sides are.
#[derive(Clone, Copy)]
pub struct Wire {
    pub kind: Kind,
    pub role: Role,
    pub writer: Option<Side>,
    pub reader: Option<Side>,
}
