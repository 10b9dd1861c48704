//! Secrets of keys.

ghost use Rattle.std.specs.Prelude.{◌≡◌, IfOk, bytes_eq};
ghost use Rattle.sha2.specs.Sha256.{sha256};
ghost use Rattle.b2_model.specs.AskKeys.{secret_text};

use b2_base::{Memory, Text, write_sixteen};
use b2_types::Key;
use sha2::{Digest, Sha256};
use std::alloc::Global;

/// The text of a secret, from four random words.
pub fn secret_text(alloc: Global, words: [u64; 4]) -> Result<Text, Memory>
    ensures { IfOk result (λ t. t ≡ secret_text words) }
{
    let [first, second, third, fourth] = words;
    let first = write_sixteen(alloc, first)?;
    let second = write_sixteen(alloc, second)?;
    let third = write_sixteen(alloc, third)?;
    let fourth = write_sixteen(alloc, fourth)?;
    let text = format!(in alloc; "K001{first}{second}{third}{fourth}")?;
    Ok(Text::of(text))
}

/// Whether the secret has this SHA-256 (FIPS 180-4), by which alone it is known.
pub fn has_hash(hash: &[u8; 32], secret: &[u8]) -> bool
    ensures { result ≡ bytes_eq (sha256 secret.now) hash.now }
{
    Sha256::digest(secret) == *hash
}

/// Whether this is the key's secret.
pub fn check_secret(key: &Key, secret: &[u8]) -> bool
    ensures { result ≡ bytes_eq (sha256 secret.now) key.now.hash }
{
    has_hash(&key.hash, secret)
}
