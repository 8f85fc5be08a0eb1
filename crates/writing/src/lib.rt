// Bytes, record heads, variables and figures put into a buffer.
#![tactic(auto)]

ghost use Rattle.std.specs.Prelude.{[], ◌∷◌, ◌≡◌};
ghost use Rattle.rules.specs.Bytes.{put2};
ghost use Rattle.rules.specs.Image.{type_byte, var_bytes, figure_bytes};
ghost use Rattle.rules.specs.Answers.{type_as};
ghost use Rattle.writing.specs.Puts.{fits, put_at};

use rules::Type;

// Bytes are put at an offset of a buffer, all of them or none: whether they fit.
pub fn put(buffer: &mut [u8], at: usize, bytes: &[u8]) -> bool
    ensures { (result ≡ fits buffer.old at bytes.now) × (buffer.new ≡ put_at buffer.old at bytes.now) }
{
    if buffer.len() < at || buffer.len() - at < bytes.len() {
        return false;
    }
    buffer[at..at + bytes.len()].copy_from_slice(bytes);
    true
}

// The head of a record, if it fits: the payload's length, and the kind.
#[tactic(auto, unfolding(rules::specs::Bytes::put2))]
pub fn put_head(buffer: &mut [u8], at: usize, kind: u16, length: u16) -> bool
    ensures { (result ≡ fits buffer.old at (put2 length (put2 kind []))) × (buffer.new ≡ put_at buffer.old at (put2 length (put2 kind []))) }
{
    let [l0, l1] = octets::bytes_of_word(length);
    let [k0, k1] = octets::bytes_of_word(kind);
    put(buffer, at, &[l0, l1, k0, k1])
}

// The byte of a type.
#[tactic(auto, unfolding(rules::specs::Image::type_byte))]
fn type_byte(kind: Type) -> u8
    ensures { result ≡ type_byte (type_as kind) }
{
    match kind {
        Type::Bool => 1,
        Type::Dint => 2,
    }
}

// A variable, if it fits: its type, and its initial value.
#[tactic(auto, unfolding(rules::specs::Image::var_bytes, rules::specs::Bytes::put4))]
pub fn put_variable(buffer: &mut [u8], at: usize, kind: Type, init: i32) -> bool
    ensures { (result ≡ fits buffer.old at (var_bytes (record { type = type_as kind; init = init } ∷ []))) × (buffer.new ≡ put_at buffer.old at (var_bytes (record { type = type_as kind; init = init } ∷ []))) }
{
    let [v0, v1, v2, v3] = octets::bytes_of(init);
    put(buffer, at, &[type_byte(kind), v0, v1, v2, v3])
}

// The payload of kind 3, if it fits: depth and worst case.
#[tactic(auto, unfolding(rules::specs::Image::figure_bytes, rules::specs::Bytes::put2, rules::specs::Bytes::put4))]
pub fn put_figures(buffer: &mut [u8], at: usize, depth: u16, worst: u32) -> bool
    ensures { (result ≡ fits buffer.old at (figure_bytes depth worst)) × (buffer.new ≡ put_at buffer.old at (figure_bytes depth worst)) }
{
    let [d0, d1] = octets::bytes_of_word(depth);
    let [w0, w1, w2, w3] = octets::bytes_of_bits(worst);
    put(buffer, at, &[d0, d1, w0, w1, w2, w3])
}
