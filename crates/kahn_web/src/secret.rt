//! The secret of the page for the hashes of names.

use std::io;
use std::random::RandomSource;

/// 16 bytes that the page draws from `crypto.getRandomValues`.
#[repr(C)]
#[derive(Clone, Copy)]
pub struct PageSecret {
    pub bytes: [u8; 16],
}

impl RandomSource for PageSecret {
    fn fill_bytes(&self, buf: &mut [u8]) -> io::Result<()> {
        for (to, from) in buf.iter_mut().zip(&self.bytes) {
            *to = *from;
        }
        Ok(())
    }
}
