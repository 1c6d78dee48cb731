// Digests of octets: an interface, the sum of octets, and SHA-1.
#![tactic(auto)]

pub mod byte_sum;
pub mod digest;
pub mod sha1;
