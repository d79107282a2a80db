// A text behind its length.
#![tactic(auto)]

ghost use Rattle.std.specs.Prelude.{◌≡◌};
ghost use Rattle.text.specs.Text.{parse_text};

use field::{Fault, Refusal};

// How many bytes a length prefix has.
pub const PREFIX_SIZE: usize = 2;

// A text behind its length, where `size_so_far` bytes came before it and all together may be `max_size`.
#[tactic(auto, unfolding(crate::specs::Text::parse_text, field::specs::Field::number_at, field::specs::Choice::pick))]
pub fn read_text(s: &[u8], size_so_far: u16, max_size: u16) -> Result<usize, Fault>
    ensures { result ≡ parse_text max_size size_so_far s.now }
{
    let n = field::read_u16(s, 0)?;
    let end = PREFIX_SIZE + usize::from(n);
    if usize::from(max_size) < usize::from(size_so_far) + end {
        return Err(Fault::new(Refusal::TooLong, 0));
    }
    if s.len() < end {
        return Err(Fault::new(Refusal::Incomplete, PREFIX_SIZE));
    }
    if !utf8::is_utf8(&s[PREFIX_SIZE..end]) {
        return Err(Fault::new(Refusal::NotUtf8, PREFIX_SIZE));
    }
    Ok(end)
}
