//! The lines of a text and the fields of a line.

ghost use Rattle.std.specs.Prelude.{◌≡◌, ◌<◌, ◌==◌, [], ◌∷◌, length, position, MatchOption, IfSome};
ghost use Rattle.std.specs.Str.Lines.{lines, strip_carriage_return};
ghost use Rattle.job_script.specs.Text.{parts_round, fields_of};
ghost use Rattle.job_script.specs.Operands.{Shows};

const LINE_FEED: u8 = b'\n';

const CARRIAGE_RETURN: u8 = b'\r';

const SPACE: u8 = b' ';

/// The fields of a line after its first.
#[derive(Clone, Copy)]
pub enum Operands<'a> {
    None,
    One(&'a [u8]),
    Two(&'a [u8], &'a [u8]),
    /// More than two.
    More,
}

/// Where a byte stands first.
fn index_of(text: &[u8], mark: u8) -> Option<usize>
    ensures { result ≡ position (λ b. b == mark) text.now }
{
    text.iter().position(|byte| *byte == mark)
}

/// What stands before the first `mark` and what stands after it, if there is one.
fn cut_at(text: &[u8], mark: u8) -> Option<(&[u8], &[u8])>
    ensures parts { MatchOption result (parts_round mark text.now ≡ text.now ∷ [])
        (λ cut. parts_round mark text.now ≡ cut.0.now ∷ parts_round mark cut.1.now) }
    ensures shorter { IfSome result (λ cut. length cut.1.now < length text.now) }
{
    let at = index_of(text, mark)?;
    Some((&text[..at], &text[at + 1..]))
}

/// A line without the CR before its LF.
fn without_carriage_return(line: &[u8]) -> &[u8]
    ensures { result.now ≡ strip_carriage_return line.now }
{
    match line {
        [front @ .., CARRIAGE_RETURN] => front,
        _ => line,
    }
}

/// The first line of a text, without its LF or CR LF, and what follows it; an empty text has none.
pub fn first_line(text: &[u8]) -> Option<(&[u8], &[u8])>
    ensures lines { MatchOption result (lines text.now ≡ [])
        (λ cut. lines text.now ≡ cut.0.now ∷ lines cut.1.now) }
    ensures shorter { IfSome result (λ cut. length cut.1.now < length text.now) }
{
    match cut_at(text, LINE_FEED) {
        Some((line, rest)) => Some((without_carriage_return(line), rest)),
        None if text.is_empty() => None,
        None => Some((text, &[])),
    }
}

/// The first field of a line, and what follows it, if there is one.
pub fn first_field(line: &[u8]) -> Option<(&[u8], &[u8])>
    ensures { MatchOption result (fields_of line.now ≡ [])
        (λ cut. fields_of line.now ≡ cut.0.now ∷ fields_of cut.1.now) }
{
    let mut rest = line;
    while let Some((part, after)) = cut_at(rest, SPACE) {
        if !part.is_empty() {
            return Some((part, after));
        }
        rest = after;
    }
    if rest.is_empty() {
        None
    } else {
        Some((rest, &[]))
    }
}

/// The fields of what follows the first field of a line.
pub fn operands_of(rest: &[u8]) -> Operands<'_>
    ensures { Shows result (fields_of rest.now) }
{
    let Some((first, rest)) = first_field(rest) else {
        return Operands::None;
    };
    let Some((second, rest)) = first_field(rest) else {
        return Operands::One(first);
    };
    match first_field(rest) {
        None => Operands::Two(first, second),
        Some(_) => Operands::More,
    }
}
