// The declared names in lent numbers: finding one by its letters, and entering one more.
#![tactic(auto)]

ghost use Rattle.std.specs.Prelude.{[], ◌∷◌, ◌≡◌, ◌*◌, get_or, set};
ghost use Rattle.std.proofs.lemmas.List.Edits.{sets};
ghost use Rattle.rules.specs.Base.{same};
ghost use Rattle.rules.specs.Tokens.{upper};
ghost use Rattle.rules.specs.Walk.{find};
ghost use Rattle.rules.specs.Answers.{type_as};
ghost use Rattle.names.specs.Rows.{spelling, type_of, row_at, rows_from, slot_of};

use rules::{Kind, Type};

// The letter at i as a capital, 0 behind the text.
#[tactic(auto, using(crate::proofs::Capitals::capital))]
fn letter_at(text: &[u8], i: usize) -> u8
    ensures { result ≡ upper (get_or text.now i 0) }
{
    text.get(i).copied().unwrap_or(0).to_ascii_uppercase()
}

// The lent number at i, 0 behind the last.
fn number(memory: &[u32], i: usize) -> u32
    ensures { result ≡ get_or memory.now i 0 }
{
    memory.get(i).copied().unwrap_or(0)
}

// A number is stored where there is room for it. By index: what std promises of `get_mut` leaves the other numbers open.
fn store(memory: &mut [u32], i: usize, x: u32)
    ensures { memory.new ≡ set memory.old i x }
{
    if i < memory.len() {
        memory[i] = x;
    }
}

// Whether so many letters are the same at two places. Letter case means nothing.
pub fn same(text: &[u8], a: u32, b: u32, length: u32) -> bool
    ensures { result ≡ same (spelling text.now a length) (spelling text.now b length) }
{
    let (a, b) = (a as usize, b as usize);
    (0..length).all(|k| letter_at(text, a + k as usize) == letter_at(text, b + k as usize))
}

// Whether a row has the letters at a place.
fn is_row(text: &[u8], memory: &[u32], row: u32, place: u32, length: u32) -> bool
    ensures { result ≡ same (spelling text.now place length) (row_at text.now memory.now row).letters }
{
    let i = 3 * row as usize;
    number(memory, i + 2) == length && same(text, place, number(memory, i + 1), length)
}

// The first of so many rows that has the letters at a place.
pub fn find(text: &[u8], memory: &[u32], count: u32, place: u32, length: u32) -> Option<u32>
    ensures { result ≡ slot_of (find (spelling text.now place length) 0 (rows_from text.now memory.now 0 count)) }
{
    (0..count).find(|row| is_row(text, memory, *row, place, length))
}

// The type that stands in a row.
#[tactic(auto, unfolding(crate::specs::Rows::type_of))]
pub fn type_of(memory: &[u32], row: u32) -> Type
    ensures { type_as result ≡ type_of (get_or memory.now (3 * row) 0) }
{
    if number(memory, 3 * row as usize) == Kind::Bool.number() {
        Type::Bool
    } else {
        Type::Dint
    }
}

// A name is entered in a row, where there is room for it. The kind may be any number: a type would ask more of callers.
pub fn enter(memory: &mut [u32], row: u32, kind: u32, place: u32, length: u32)
    ensures { memory.new ≡ sets memory.old (3 * row) (kind ∷ place ∷ length ∷ []) }
{
    let i = 3 * row as usize;
    store(memory, i, kind);
    store(memory, i + 1, place);
    store(memory, i + 2, length);
}
