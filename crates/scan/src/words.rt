// Names and reserved words.
ghost use Rattle.std.specs.Prelude.{◌≡◌};
ghost use Rattle.rules.specs.Kinds.{NAME};
ghost use Rattle.rules.specs.Base.{same};
ghost use Rattle.rules.specs.Tokens.{in_name, run, fold, reserved, lookup, parts_well, is_name, name_piece};
ghost use Rattle.scan.specs.Pieces.{answered, shown, Finds, kind_in};

use super::bytes;
use super::pieces::Piece;
use rules::{Fault, Kind};

// The reserved words, in capitals, and their kinds.
const RESERVED: [(&[u8], Kind); 32] = [
    (b"AND", Kind::And),
    (b"BOOL", Kind::Bool),
    (b"BY", Kind::By),
    (b"CASE", Kind::Case),
    (b"DINT", Kind::Dint),
    (b"DO", Kind::Do),
    (b"ELSE", Kind::Else),
    (b"ELSIF", Kind::Elsif),
    (b"END_CASE", Kind::EndCase),
    (b"END_FOR", Kind::EndFor),
    (b"END_IF", Kind::EndIf),
    (b"END_PROGRAM", Kind::EndProgram),
    (b"END_REPEAT", Kind::EndRepeat),
    (b"END_VAR", Kind::EndVar),
    (b"END_WHILE", Kind::EndWhile),
    (b"EXIT", Kind::Exit),
    (b"FALSE", Kind::False),
    (b"FOR", Kind::For),
    (b"IF", Kind::If),
    (b"MOD", Kind::Mod),
    (b"NOT", Kind::Not),
    (b"OF", Kind::Of),
    (b"OR", Kind::Or),
    (b"PROGRAM", Kind::Program),
    (b"REPEAT", Kind::Repeat),
    (b"THEN", Kind::Then),
    (b"TO", Kind::To),
    (b"TRUE", Kind::True),
    (b"UNTIL", Kind::Until),
    (b"VAR", Kind::Var),
    (b"WHILE", Kind::While),
    (b"XOR", Kind::Xor),
];

// A name has at most so many bytes.
const LONGEST: usize = 32;

// Whether no two underscores run, and none is last.
fn parts_well(word: &[u8]) -> bool
    ensures { result ≡ parts_well word.now }
{
    !word.ends_with(b"_") && !word.windows(2).any(|pair| pair == b"__".as_slice())
}

// Whether the word is parted well and not too long.
#[tactic(auto, unfolding(rules::specs::Tokens::is_name))]
fn is_name(word: &[u8]) -> bool
    ensures { result ≡ is_name word.now }
{
    word.len() <= LONGEST && parts_well(word)
}

// Letter case means nothing.
fn same_word(a: &[u8], b: &[u8]) -> bool
    ensures { result ≡ same (fold a.now) (fold b.now) }
{
    a.eq_ignore_ascii_case(b)
}

// The kind of the word in the table.
#[tactic(auto, unfolding(crate::specs::Pieces::kind_in))]
fn lookup(table: &[(&[u8], Kind)], word: &[u8]) -> Option<Kind>
    ensures { result ≡ kind_in table.entry.now word.now }
{
    table
        .iter()
        .find(|(spelled, _)| same_word(word, spelled))
        .map(|(_, kind)| *kind)
}

// The kind of a reserved word.
fn reserved(word: &[u8]) -> Option<Kind>
    ensures { Finds NAME result (lookup (fold word.now) reserved) }
{
    lookup(&RESERVED, word)
}

// The bytes of a name at the start of the text. No more of them are looked at than show a name that is too long.
fn name_bytes(text: &[u8]) -> &[u8]
    ensures { name_piece result.now 0 ≡ name_piece (run in_name text.now) 0 }
{
    let ahead = &text[..text.len().min(LONGEST + 1)];
    bytes::run(ahead, bytes::in_name)
}

// The name or reserved word at the start of the text.
#[tactic(auto, using(crate::proofs::Shown::a_name, crate::proofs::Shown::a_reserved, crate::proofs::Shown::no_name, crate::proofs::Shown::short))]
pub(crate) fn word(text: &[u8]) -> Result<Piece, Fault>
    ensures { answered result ≡ shown (name_piece (run in_name text.now) 0) }
{
    let word = name_bytes(text);
    let length = word.len();
    if !is_name(word) {
        return Err(Fault::BadName);
    }
    match reserved(word) {
        Some(kind) => Ok(Piece::Token(kind, 0, length)),
        None => Ok(Piece::Token(Kind::Name, length as u32, length)),
    }
}
