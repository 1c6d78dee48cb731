ghost use Rattle.std.specs.Prelude.{◌≡◌};
ghost use Rattle.orders.specs.Salts.{digest_of, salt_of, iterations_of, parts_of, made_of};

use crate::salted::{MAX_ITERATIONS, MAX_SALT, Salted};
use digests::digest::Digest;
use names::refusal::Refusal;

impl<D: Digest + Drop> Salted<D> {
    // The order with this salt and so many further iterations.
    pub fn new(digest: D, salt: &[u8], iterations: u16) -> Result<Self, Refusal>
        ensures { parts_of result ≡ made_of digest salt.now iterations }
    {
        if salt.len() > MAX_SALT || iterations > MAX_ITERATIONS {
            return Err(Refusal::SettingNotAllowed);
        }
        let mut octets = [0; MAX_SALT];
        let salt_len = salt.len();
        octets[0..salt_len].copy_from_slice(salt);
        Ok(Salted {
            digest,
            salt: octets,
            salt_len,
            iterations,
        })
    }

    // The digest.
    pub fn digest(&self) -> &D
        ensures { result.now ≡ digest_of self.now }
    {
        &self.digest
    }

    // The salt.
    pub fn salt(&self) -> &[u8]
        ensures { result.now ≡ salt_of self.now }
    {
        &self.salt[0..self.salt_len]
    }

    // How many further iterations there are.
    pub fn iterations(&self) -> u16
        ensures { result ≡ iterations_of self.now }
    {
        self.iterations
    }
}
