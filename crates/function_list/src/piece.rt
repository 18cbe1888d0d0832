// The pieces of a list of functions.

ghost use Rattle.std.specs.Prelude.{◌≡◌, IsTrue, IfSome, Some, is_some, option_map};
ghost use Rattle.std.specs.Char.{is_ascii_digit};
ghost use Rattle.std.specs.List.{list_all};
ghost use Rattle.function_list.specs.Pieces.{before_dash, behind_dash, indices_of, is_digits, is_list, is_range, name_of, number_of, read_piece, shown};

/// What a piece of a list means.
#[derive(Clone, Copy)]
pub enum Piece<'t> {
    /// The functions with the indices from the first number to the last.
    Indices(u32, u32),
    /// The functions with this name.
    Name(&'t str),
    /// The functions with a name that begins so.
    Prefix(&'t str),
}

/// The piece that a text spells. Digits alone are an index, and digits, `-` and digits are a range of indices. Any other text is a
/// name, and a `*` at its end stands for any rest.
///
/// `None` if the text is empty, if a number is not one of 32 bits, or if the first number of a range is greater than the last.
pub fn read_piece(text: &str) -> Option<Piece<'_>>
    ensures { option_map shown result ≡ read_piece text.now }
{
    if is_digits(text) {
        return indices_of(text, text);
    }
    match range_in(text) {
        Some((first, last)) => indices_of(first, last),
        None => name_of(text),
    }
}

/// Whether each piece of a list has a form. Single commas stand between the pieces.
pub fn is_list(list: &str) -> bool
    ensures { result ≡ is_list list.now }
{
    list.split(',').all(|text| has_form(text))
}

// Whether a text is a piece.
fn has_form(text: &str) -> bool
    ensures { result ≡ is_some (read_piece text.now) }
{
    read_piece(text).is_some()
}

// Whether a text is digits alone, at least one.
fn is_digits(text: &str) -> bool
    ensures { result ≡ is_digits text.now }
{
    !text.is_empty() && all_digits(text.as_bytes())
}

fn all_digits(bytes: &[u8]) -> bool
    ensures { result ≡ list_all is_ascii_digit bytes.now }
{
    bytes.iter().all(|byte| byte.is_ascii_digit())
}

// The number that digits write, if it is one of 32 bits.
fn number_of(digits: &str) -> Option<u32>
    requires { IsTrue (is_digits digits.now) }
    ensures { result ≡ number_of digits.now }
{
    digits.parse::<u32>().ok()
}

// The piece of two numbers that digits write; `None` if one is not of 32 bits or the first one is greater.
fn indices_of<'t>(first: &str, last: &str) -> Option<Piece<'t>>
    requires first { IsTrue (is_digits first.now) }
    requires last { IsTrue (is_digits last.now) }
    ensures { option_map shown result ≡ indices_of first.now last.now }
{
    let first = number_of(first)?;
    let last = number_of(last)?;
    if first > last {
        return None;
    }
    Some(Piece::Indices(first, last))
}

// The digits in front of the first `-` and those behind it, if the text is digits, `-` and digits.
fn range_in(text: &str) -> Option<(&str, &str)>
    ensures some { IfSome result (λ r. (r.0.now ≡ before_dash text.now) × (r.1.now ≡ behind_dash text.now)) }
    ensures is { is_some result ≡ is_range text.now }
{
    let (first, last) = text.split_once('-')?;
    if !is_digits(first) || !is_digits(last) {
        return None;
    }
    Some((first, last))
}

// The name that a text is, with or without a `*` at its end; `None` if the text is empty.
fn name_of(text: &str) -> Option<Piece<'_>>
    ensures { option_map shown result ≡ name_of text.now }
{
    if text.is_empty() {
        return None;
    }
    match text.strip_suffix('*') {
        Some(front) => Some(Piece::Prefix(front)),
        None => Some(Piece::Name(text)),
    }
}
