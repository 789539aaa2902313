//! HMAC (RFC 2104) over SHA-1 and SHA-256.

ghost use Rattle.std.specs.Prelude.{◌≡◌, ℕ, ◌++◌, ◌≤◌, List, length};
ghost use Rattle.sha1.specs.Sha1.{sha1};
ghost use Rattle.sha2.specs.Sha256.{sha256};
ghost use Rattle.turn_auth.specs.Hmac.{hmac, filled, key_block, padded};
ghost use Rattle.turn_auth.specs.Keyed.{HoldsSha1, HoldsSha256};

use sha1::Sha1;
use sha2::{Digest, Sha256};

/// The block size of both digests, in bytes.
const BLOCK_LEN: usize = 64;

/// The HMAC-SHA1 of the text under the key (RFC 2104), for a key of any length. Allocates no memory.
pub fn hmac_sha1(key: &[u8], text: &[u8]) -> [u8; 20]
    ensures { result ≡ hmac sha1 key.now text.now }
{
    HmacSha1::new(key).code(text, &[])
}

/// The HMAC-SHA256 of the text under the key (RFC 2104), for a key of any length. Allocates no memory.
pub fn hmac_sha256(key: &[u8], text: &[u8]) -> [u8; 32]
    ensures { result ≡ hmac sha256 key.now text.now }
{
    HmacSha256::new(key).code(text, &[])
}

/// An HMAC-SHA1 under a key.
///
/// Both digests are kept after the padded key, so that no text costs a digest of it again.
#[derive(Drop)]
pub(crate) struct HmacSha1 {
    inner: Sha1,
    outer: Sha1,
}

impl HmacSha1 {
    /// The HMAC under this key.
    pub(crate) fn new(key: &[u8]) -> HmacSha1
        ensures { HoldsSha1 result key.now }
    {
        let block = sha1_block(key);
        let mut inner = Sha1::new();
        inner.update(&padded(&block, 0x36));
        let mut outer = Sha1::new();
        outer.update(&padded(&block, 0x5c));
        HmacSha1 { inner, outer }
    }

    /// The HMAC of a text in two pieces.
    #[tactic(auto, unfolding(crate::specs::Hmac::hmac))]
    pub(crate) fn code(&self, front: &[u8], rest: &[u8]) -> [u8; 20]
        ensures { (key : List ℕ) → HoldsSha1 self.now key → result ≡ hmac sha1 key (front.now ++ rest.now) }
    {
        // there are few pieces, and what is kept is copied once, since each of both costs some percent of a block
        let mut inner = self.inner.clone().unwrap();
        inner.update(front);
        inner.update(rest);
        let mut outer = self.outer.clone().unwrap();
        outer.update(&inner.finalize());
        outer.finalize()
    }
}

/// An HMAC-SHA256 under a key, which is kept as `HmacSha1` keeps it.
#[derive(Drop)]
pub(crate) struct HmacSha256 {
    inner: Sha256,
    outer: Sha256,
}

impl HmacSha256 {
    /// The HMAC under this key.
    pub(crate) fn new(key: &[u8]) -> HmacSha256
        ensures { HoldsSha256 result key.now }
    {
        let block = sha256_block(key);
        let mut inner = Sha256::new();
        inner.update(&padded(&block, 0x36));
        let mut outer = Sha256::new();
        outer.update(&padded(&block, 0x5c));
        HmacSha256 { inner, outer }
    }

    /// The HMAC of a text in two pieces.
    #[tactic(auto, unfolding(crate::specs::Hmac::hmac))]
    pub(crate) fn code(&self, front: &[u8], rest: &[u8]) -> [u8; 32]
        ensures { (key : List ℕ) → HoldsSha256 self.now key → result ≡ hmac sha256 key (front.now ++ rest.now) }
    {
        let mut inner = self.inner.clone().unwrap();
        inner.update(front);
        inner.update(rest);
        let mut outer = self.outer.clone().unwrap();
        outer.update(&inner.finalize());
        outer.finalize()
    }
}

/// The key as a block: a longer one is hashed first.
fn sha1_block(key: &[u8]) -> [u8; 64]
    ensures { result ≡ key_block sha1 key.now }
{
    if key.len() > BLOCK_LEN {
        return filled(&Sha1::digest(key));
    }
    filled(key)
}

/// The key as a block: a longer one is hashed first.
fn sha256_block(key: &[u8]) -> [u8; 64]
    ensures { result ≡ key_block sha256 key.now }
{
    if key.len() > BLOCK_LEN {
        let digest: [u8; 32] = Sha256::digest(key);
        return filled(&digest);
    }
    filled(key)
}

/// The key, and zeros up to a block.
fn filled(key: &[u8]) -> [u8; 64]
    requires { length key.now ≤ 64 }
    ensures { result ≡ filled key.now }
{
    let mut block = [0; BLOCK_LEN];
    block[..key.len()].copy_from_slice(key);
    block
}

/// Each byte of the block, XORed with the pad.
fn padded(block: &[u8; 64], pad: u8) -> [u8; 64]
    ensures { result ≡ padded pad block.now }
{
    let mut out = *block;
    for byte in out.iter_mut() {
        *byte ^= pad;
    }
    out
}
