// HMAC with SHA-256 (RFC 2104).

ghost use Rattle.std.specs.Prelude.{◌≡◌, ◌++◌, ◌≤◌, length};
ghost use Rattle.links.specs.seal.Hmac.{hmac, key_block, padded, xored};
ghost use Rattle.sha2.specs.Sha256.{sha256};

use sha2::{Digest, Sha256};

/// Bytes in a block of SHA-256.
const BLOCK_BYTES: usize = 64;

/// The byte with which a key's block is xored for the inner hash.
const INNER_PAD: u8 = 0x36;

/// The same for the outer hash.
const OUTER_PAD: u8 = 0x5C;

/// Returns the HMAC with SHA-256 of a message that comes in three parts, under a key of any length
/// (RFC 2104).
pub fn hmac(key: &[u8], first: &[u8], second: &[u8], third: &[u8]) -> [u8; 32]
    ensures { result ≡ hmac key.now (first.now ++ second.now ++ third.now) }
{
    let block = key_block(key);
    let inner = hash_behind(&xored(&block, INNER_PAD), first, second, third);
    hash_behind(&xored(&block, OUTER_PAD), &inner, &[], &[])
}

// Returns the SHA-256 of three parts that follow a block.
fn hash_behind(block: &[u8; 64], first: &[u8], second: &[u8], third: &[u8]) -> [u8; 32]
    ensures { result ≡ sha256 (block.now ++ first.now ++ second.now ++ third.now) }
{
    let mut hasher = Sha256::new();
    hasher.update(block.as_slice());
    hasher.update(first);
    hasher.update(second);
    hasher.update(third);
    hasher.finalize()
}

// Returns a key as one block: hashed if it is longer, and with zeros behind it.
fn key_block(key: &[u8]) -> [u8; 64]
    ensures { result ≡ key_block key.now }
{
    if key.len() > BLOCK_BYTES {
        return padded(&Sha256::digest(key));
    }
    padded(key)
}

// Returns a key of at most a block with zeros up to a block.
fn padded(key: &[u8]) -> [u8; 64]
    requires { length key.now ≤ 64 }
    ensures { result ≡ padded key.now }
{
    let mut block = [0; BLOCK_BYTES];
    block[..key.len()].copy_from_slice(key);
    block
}

// Returns a block with each byte xored.
fn xored(block: &[u8; 64], byte: u8) -> [u8; 64]
    ensures { result ≡ xored byte block.now }
{
    let mut out = [0; BLOCK_BYTES];
    'bytes: for index in 0..BLOCK_BYTES {
        out[index] = block[index] ^ byte;
    }
    out
}
