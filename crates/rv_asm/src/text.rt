//! Pieces of a text.

ghost use Rattle.std.specs.Prelude.{◌≡◌, ◌+◌, length};
ghost use Rattle.std.specs.Option.{option_copied, option_map};
ghost use Rattle.rv_asm.specs.Bytes;
ghost use Rattle.rv_asm.specs.Text;

/// The text before the first byte that is one of two, and the text from that byte on.
pub fn split_before(text: &[u8], a: u8, b: u8) -> (&[u8], &[u8])
    ensures front { result.0.now ≡ Text.front (Bytes.is_either a b) text.now }
    ensures rest { result.1.now ≡ Text.rest (Bytes.is_either a b) text.now }
    ensures size { length result.0.now + length result.1.now ≡ length text.now }
{
    for i in 0..text.len() {
        if text[i] == a || text[i] == b {
            return text.split_at(i);
        }
    }
    text.split_at(text.len())
}

fn is_blank(byte: u8) -> bool
    ensures { result ≡ Text.is_blank byte }
{
    byte == b' ' || byte == b'\t'
}

/// The text without the blanks at its front.
pub fn trim_start(text: &[u8]) -> &[u8]
    ensures { result.now ≡ Text.trim_start text.now }
{
    for i in 0..text.len() {
        if !is_blank(text[i]) {
            return &text[i..];
        }
    }
    &text[text.len()..]
}

/// The text without the blanks at its end.
#[tactic(auto, using(crate::proofs::Pieces::trim_back, crate::proofs::Pieces::trim_kept))]
fn trim_end(text: &[u8]) -> &[u8]
    ensures { result.now ≡ Text.trim_end text.now }
{
    let mut end = text.len();
    while end > 0 {
        if !is_blank(text[end - 1]) {
            return &text[..end];
        }
        end -= 1;
    }
    &text[..0]
}

/// The text without the blanks at either end.
pub fn trim(text: &[u8]) -> &[u8]
    ensures { result.now ≡ Text.trim text.now }
{
    trim_end(trim_start(text))
}

/// The text without its last byte, where that is the one wanted.
pub fn without_last(text: &[u8], wanted: u8) -> Option<&[u8]>
    ensures { option_copied result ≡ Text.without_last wanted text.now }
{
    match text {
        [others @ .., last] if *last == wanted => Some(others),
        _ => None,
    }
}

/// The operand before the first comma, and what stands behind it.
fn split_comma(text: &[u8]) -> (&[u8], Option<&[u8]>)
    ensures first { result.0.now ≡ Text.trim (Text.before_comma text.now) }
    ensures more { option_copied result.1 ≡ Text.after_comma text.now }
{
    let (first, found) = split_before(text, b',', b',');
    match found {
        [] => (trim(first), None),
        [_, more @ ..] => (trim(first), Some(more)),
    }
}

/// An operand that stands alone.
#[tactic(auto, unfolding(crate::specs::Text::one_operand))]
pub fn one_operand(text: &[u8]) -> Option<&[u8]>
    ensures { option_copied result ≡ Text.one_operand text.now }
{
    match split_comma(text) {
        (first, None) => Some(first),
        _ => None,
    }
}

/// Two operands, apart by a comma.
#[tactic(auto, unfolding(crate::specs::Text::two_operands))]
pub fn two_operands(text: &[u8]) -> Option<(&[u8], &[u8])>
    ensures { option_map (λ p. (p.0.now, p.1.now)) result ≡ Text.two_operands text.now }
{
    let (first, Some(more)) = split_comma(text) else {
        return None;
    };
    let second = one_operand(more)?;
    Some((first, second))
}

/// Three operands, apart by commas.
#[tactic(auto, unfolding(crate::specs::Text::three_operands))]
pub fn three_operands(text: &[u8]) -> Option<(&[u8], &[u8], &[u8])>
    ensures { option_map (λ p. (p.0.now, p.1.now, p.2.now)) result ≡ Text.three_operands text.now }
{
    let (first, Some(more)) = split_comma(text) else {
        return None;
    };
    let (second, third) = two_operands(more)?;
    Some((first, second, third))
}
