// What a text is cut into: blanks, comments, parentheses and runs.

ghost use Rattle.std.specs.Prelude.{◌≡◌, ℕ, ◌+◌, ◌<◌, ◌≤◌, ◌∷◌, ◌++◌, length, take, drop};
ghost use Rattle.std.specs.List.{prefix_len};
ghost use Rattle.br_base.specs.Name.{continues_name};
ghost use Rattle.br_sexpr.specs.Layout.{is_blank, stays_in_line};
ghost use Rattle.br_sexpr.specs.Progress.{tokens_from, token_as};

use br_base::continues_name;

/// What stands at the front of a text.
#[derive(Clone, Copy, Debug, PartialEq, Eq)]
pub enum Kind {
    /// A blank or a comment.
    Gap,
    Open,
    Close,
    /// A longest run of letters, digits and `_`.
    Run,
    /// A byte that is none of these.
    Stray,
}

/// What the first byte of a text begins, and how many bytes it takes.
pub fn first_piece(text: &[u8]) -> (Kind, usize)
    requires { 0 < length text.now }
    ensures some { 0 < result.1 }
    ensures within { result.1 ≤ length text.now }
    ensures cut { (at : ℕ) → tokens_from at text.now
        ≡ token_as at result.0 (take result.1 text.now)
        ++ tokens_from (at + result.1) (drop result.1 text.now) }
{
    let Some((first, rest)) = text.split_first() else {
        unreachable!()
    };
    let (kind, len) = begun(*first, rest);
    (kind, 1 + len)
}

// What a byte begins, and how many of the bytes after it belong to it.
fn begun(first: u8, rest: &[u8]) -> (Kind, usize)
    ensures within { result.1 ≤ length rest.now }
    ensures cut { (at : ℕ) → tokens_from at (first ∷ rest.now)
        ≡ token_as at result.0 (first ∷ take result.1 rest.now)
        ++ tokens_from (at + (1 + result.1)) (drop result.1 rest.now) }
{
    if is_blank(first) {
        (Kind::Gap, 0)
    } else if first == b';' {
        (Kind::Gap, line_len(rest))
    } else if first == b'(' {
        (Kind::Open, 0)
    } else if first == b')' {
        (Kind::Close, 0)
    } else if continues_name(first) {
        (Kind::Run, run_len(rest))
    } else {
        (Kind::Stray, 0)
    }
}

fn is_blank(byte: u8) -> bool
    ensures { result ≡ is_blank byte }
{
    byte == b' ' || byte == b'\t' || byte == b'\n' || byte == b'\r'
}

// How many bytes stand before the end of the line.
fn line_len(text: &[u8]) -> usize
    ensures { result ≡ prefix_len stays_in_line text.now }
{
    text.iter().take_while(|byte| **byte != b'\n').count()
}

// How many bytes the run has that goes on at the front of a text.
fn run_len(text: &[u8]) -> usize
    ensures { result ≡ prefix_len continues_name text.now }
{
    text.iter()
        .take_while(|byte| continues_name(**byte))
        .count()
}
