// What a byte is.
ghost use Rattle.std.specs.Prelude.{◌≡◌, ℕ, Bool, length};
ghost use Rattle.rules.specs.Tokens.{run, starts_name, in_name, in_integer, in_line};

// All but LF, FF, CR.
#[tactic(auto, unfolding(rules::specs::Tokens::in_line))]
pub(crate) fn in_line(x: u8) -> bool
    ensures { result ≡ in_line x }
{
    !matches!(x, b'\n' | b'\x0C' | b'\r')
}

// A letter or an underscore.
#[tactic(auto, unfolding(rules::specs::Tokens::starts_name, rules::specs::Tokens::is_capital, rules::specs::Tokens::is_small, rules::specs::Tokens::is_under, rules::specs::Tokens::within))]
pub(crate) fn starts_name(x: u8) -> bool
    ensures { result ≡ starts_name x }
{
    x.is_ascii_alphabetic() || x == b'_'
}

#[tactic(auto, unfolding(rules::specs::Tokens::in_name, rules::specs::Tokens::is_digit, rules::specs::Tokens::within))]
pub(crate) fn in_name(x: u8) -> bool
    ensures { result ≡ in_name x }
{
    starts_name(x) || x.is_ascii_digit()
}

// `#` too.
#[tactic(auto, unfolding(rules::specs::Tokens::in_integer))]
pub(crate) fn in_integer(x: u8) -> bool
    ensures { result ≡ in_integer x }
{
    in_name(x) || x == b'#'
}

// The longest beginning of bytes that pass the test. In the clause, p is the test in the words of the rules.
pub(crate) fn run<F: Fn(u8) -> bool>(text: &[u8], belongs: F) -> &[u8]
    requires { F.IsAlwaysCallable belongs }
    ensures { (p : ℕ → Bool) → ((x : ℕ) (b : Bool) → F.post belongs x b → b ≡ p x) → result.now ≡ run p text.now }
{
    let length = text.iter().take_while(|&&x| belongs(x)).count();
    &text[..length]
}
