// Parts of the cases by which two engines are compared (docs/CASES.md): numbers of four bytes, and the digests of a list and
// of bytes.
#![tactic(auto)]

ghost use Rattle.std.specs.Prelude.{◌≡◌, ◌<◌};
ghost use Rattle.cases.specs.Cases.{modulus, digested, word_digested, list_digest, bytes_digest, number};

// What the digest so far is multiplied by, and what the digest is a remainder of.
const FACTOR: u64 = 65599;

const MODULUS: u64 = 4294967291;

// A number of four bytes, the lowest first.
pub fn number(b: &[u8; 4]) -> u64
    ensures { result ≡ number b.now }
{
    u64::from(u32::from_le_bytes(*b))
}

// The digest with a byte more.
fn digested(h: u64, b: u64) -> u64
    requires { (h < modulus) × (b < 256) }
    ensures { (result ≡ digested h b) × (result < modulus) }
{
    (h * FACTOR + b + 1) % MODULUS
}

// The digest with a word more, as eight bytes, the lowest first.
fn word(h: u64, w: u64) -> u64
    requires { h < modulus }
    ensures { (result ≡ word_digested 8 h w) × (result < modulus) }
{
    let mut digest = h;
    let mut left = w;
    for _ in 0..u64::BITS / u8::BITS {
        digest = digested(digest, left % 256);
        left /= 256;
    }
    digest
}

// The digest of a list, whose places are words.
pub fn digest(list: &[u64]) -> u64
    ensures { result ≡ list_digest 0 list.now }
{
    let mut digest = 0;
    for w in list {
        digest = word(digest, *w);
    }
    digest
}

// The digest of bytes.
pub fn bytes(s: &[u8]) -> u64
    ensures { result ≡ bytes_digest 0 s.now }
{
    let mut digest = 0;
    for b in s {
        digest = digested(digest, u64::from(*b));
    }
    digest
}
