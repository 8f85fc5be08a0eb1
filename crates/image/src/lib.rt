// An image read record by record, in place.
#![tactic(auto)]

ghost use Rattle.std.specs.Prelude.{◌≡◌, MatchOption};
ghost use Rattle.std.proofs.Math.Option.{none, some};
ghost use Rattle.rules.specs.Bytes.{record_in};
ghost use Rattle.rules.specs.Image.{image_in};
ghost use Rattle.variables.specs.Slots.{is_some};
ghost use Rattle.image.specs.Parts.{read, Three, shaped, variables_part, code_part};

use rules::Limits;

// A record: its kind, its payload, and the bytes behind it.
#[derive(Clone, Copy)]
struct Record<'a> {
    kind: usize,
    payload: &'a [u8],
    rest: &'a [u8],
}

// The record at the start of the bytes, if all of it is there.
fn first_record(bytes: &[u8]) -> Option<Record<'_>>
    ensures { MatchOption result (record_in bytes.now ≡ none) (λ r. record_in bytes.now ≡ some (read r)) }
{
    let (head, behind) = bytes.split_first_chunk::<4>()?;
    let [n0, n1, k0, k1] = *head;
    let (payload, rest) = behind.split_at_checked(octets::word_of(n0, n1))?;
    Some(Record {
        kind: octets::word_of(k0, k1),
        payload,
        rest,
    })
}

// The three records of an image, one behind the other.
#[derive(Clone, Copy)]
struct Records<'a> {
    one: Record<'a>,
    two: Record<'a>,
    three: Record<'a>,
}

impl Records<'_> {
    // Whether the records are of their kinds and lengths, and nothing stands behind them.
    fn are_shaped(&self) -> bool
        ensures { result ≡ shaped (read self.now.one) (read self.now.two) (read self.now.three) }
    {
        self.one.kind == 1
            && self.two.kind == 2
            && self.three.kind == 3
            && self.two.payload.len() <= Limits::CODE
            && self.three.payload.len() == 6
            && self.three.rest.is_empty()
            && self.one.payload.len() <= 5 * Limits::VARIABLES
    }
}

// The records at the start of the bytes, if there are three.
fn three_records(image: &[u8]) -> Option<Records<'_>>
    ensures { MatchOption result (image_in image.now ≡ none) (λ r. Three image.now (read r.one) (read r.two) (read r.three)) }
{
    let one = first_record(image)?;
    let two = first_record(one.rest)?;
    let three = first_record(two.rest)?;
    Some(Records { one, two, three })
}

// Whether the bytes are exactly the three records of an image (else number 23).
#[tactic(auto, unfolding(variables::specs::Slots::is_some))]
pub fn is_image(image: &[u8]) -> bool
    ensures { result ≡ is_some (image_in image.now) }
{
    match three_records(image) {
        Some(records) => { records.are_shaped() && variables::are_variables(records.one.payload) }
        None => false,
    }
}

// The variables of an image: a part of its bytes.
#[tactic(auto, unfolding(crate::specs::Parts::variables_part, crate::specs::Parts::payload_of))]
pub fn variables(image: &[u8]) -> &[u8]
    ensures { result.now ≡ variables_part image.now }
{
    first_record(image).map_or(&[], |record| record.payload)
}

// The code of an image: a part of its bytes.
#[tactic(auto, unfolding(crate::specs::Parts::code_part, crate::specs::Parts::payload_of, crate::specs::Parts::rest_of, rules::specs::Bytes::record_in))]
pub fn code(image: &[u8]) -> &[u8]
    ensures { result.now ≡ code_part image.now }
{
    first_record(image)
        .and_then(|record| first_record(record.rest))
        .map_or(&[], |record| record.payload)
}
