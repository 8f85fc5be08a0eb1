// Numbers as bytes, and bytes as numbers. What the widths have in common is in std's methods; each function says what the rules call its result.
#![tactic(auto)]

ghost use Rattle.std.specs.Prelude.{[], ◌≡◌, ◌<◌};
ghost use Rattle.rules.specs.Bytes.{to_u, of_u, put2, put4, of2, of4};

// Two's complement: the number whose bits are these.
#[tactic(auto, using(crate::proofs::Methods::signed_is))]
pub fn signed(bits: u32) -> i32
    ensures { result ≡ of_u bits }
{
    bits.cast_signed()
}

// The number of four bytes, the lowest first.
#[tactic(auto, using(crate::proofs::Methods::signed_is), unfolding(rules::specs::Bytes::of4))]
pub fn value_of(b0: u8, b1: u8, b2: u8, b3: u8) -> i32
    ensures { result ≡ of4 b0 b1 b2 b3 }
{
    i32::from_le_bytes([b0, b1, b2, b3])
}

// The number of two bytes, the lower first.
#[tactic(auto, using(crate::proofs::Methods::word_is))]
pub fn word_of(b0: u8, b1: u8) -> usize
    ensures { (result ≡ of2 b0 b1) × (result < 65536) }
{
    usize::from(u16::from_le_bytes([b0, b1]))
}

// The two bytes of a number, the lower first.
#[tactic(auto, using(crate::proofs::Methods::two_bytes))]
pub fn bytes_of_word(word: u16) -> [u8; 2]
    ensures { result ≡ put2 word [] }
{
    word.to_le_bytes()
}

// The four bytes of a number, the lowest first.
#[tactic(auto, using(crate::proofs::Methods::four_bytes))]
pub fn bytes_of_bits(bits: u32) -> [u8; 4]
    ensures { result ≡ put4 bits [] }
{
    bits.to_le_bytes()
}

// The four bytes of a value, the lowest first, in two's complement.
#[tactic(auto, using(crate::proofs::Methods::value_bytes))]
pub fn bytes_of(value: i32) -> [u8; 4]
    ensures { result ≡ put4 (to_u value) [] }
{
    value.to_le_bytes()
}
