// UTF-8 (RFC 3629).
#![tactic(auto)]

ghost use Rattle.std.specs.Prelude.{◌≡◌, ◌+◌, ◌<◌, ◌≤◌, ◌⊎◌, false, length, take};
ghost use Rattle.std.specs.Bool.{MatchBool, OnTrue};
ghost use Rattle.std.specs.Str.{IsAscii};
ghost use Rattle.utf8.specs.Rows.{meant, IsTailFirst};
ghost use Rattle.utf8.specs.Utf8.{Tail, after_first, utf8_from, is_utf8};

// What may come next: a character or the end; a byte from the first to the second number, and then so many tail bytes more; nothing.
#[derive(Clone, Copy, PartialEq, Eq)]
pub enum Expected {
    Boundary,
    Tail(u8, u8, u8),
    Invalid,
}

// What a character's first byte asks for.
#[tactic(auto, using(std::proofs::lemmas::Bool::Decides::nat_tests), unfolding(crate::specs::Utf8::after_first, field::specs::Choice::pick))]
fn after_first(b: u8) -> Expected
    ensures { meant result ≡ after_first b }
{
    if b <= 0x7F {
        return Expected::Boundary;
    }
    if b <= 0xC1 {
        return Expected::Invalid;
    }
    if b <= 0xDF {
        return Expected::Tail(0x80, 0xBF, 0);
    }
    if b <= 0xE0 {
        return Expected::Tail(0xA0, 0xBF, 1);
    }
    if b <= 0xEC {
        return Expected::Tail(0x80, 0xBF, 1);
    }
    if b <= 0xED {
        return Expected::Tail(0x80, 0x9F, 1);
    }
    if b <= 0xEF {
        return Expected::Tail(0x80, 0xBF, 1);
    }
    if b <= 0xF0 {
        return Expected::Tail(0x90, 0xBF, 2);
    }
    if b <= 0xF3 {
        return Expected::Tail(0x80, 0xBF, 2);
    }
    if b <= 0xF4 {
        return Expected::Tail(0x80, 0x8F, 2);
    }
    Expected::Invalid
}

fn is_tail(b: u8) -> bool
    ensures { MatchBool result ((0x80 ≤ b) × (b ≤ 0xBF)) ((b < 0x80) ⊎ (0xBF < b)) }
{
    matches!(b, 0x80..=0xBF)
}

// Whether the bytes begin with one from the first to the second number and then so many tail bytes more.
fn has_tail(s: &[u8], low: u8, high: u8, more: u8) -> bool
    requires { more ≤ 2 }
    ensures { MatchBool result (IsTailFirst low high more s.now) (utf8_from (Tail low high more) s.now ≡ false) }
{
    if s.len() <= more as usize || s[0] < low || high < s[0] {
        return false;
    }
    if more == 0 {
        return true;
    }
    if !is_tail(s[1]) {
        return false;
    }
    if more == 1 {
        return true;
    }
    if !is_tail(s[2]) {
        return false;
    }
    true
}

// Whether no byte is above 0x7F, where it says so: one pass with no way out, which the compiler does many bytes at a time, and all at once
// where it knows how many they are.
#[inline(always)]
fn no_high_byte(s: &[u8]) -> bool
    ensures { OnTrue result (IsAscii s.now) }
{
    let mut none = true;
    for b in s {
        none &= *b <= 0x7F;
    }
    none
}

// How many bytes in front are ASCII, or as many as are told at once.
fn ascii_front(s: &[u8]) -> usize
    ensures within { result ≤ length s.now }
    ensures ascii { IsAscii (take result s.now) }
{
    if s.len() >= 16 && no_high_byte(&s[..16]) {
        return 16;
    }
    let mut n = 0;
    // Stays: a count, which ends at the first byte that is not ASCII.
    while n < s.len() && s[n] <= 0x7F {
        n += 1;
    }
    n
}

// Whether all bytes together are UTF-8, character by character. It stays apart, so that a text of ASCII does not make room for it.
#[inline(never)]
#[tactic(auto, using(crate::proofs::RowsLaws::nothing_left), unfolding(crate::specs::Utf8::is_utf8))]
fn are_characters(s: &[u8]) -> bool
    ensures { result ≡ is_utf8 s.now }
{
    let mut rest = s;
    // Stays: characters have sizes of their own.
    while !rest.is_empty() {
        match after_first(rest[0]) {
            Expected::Boundary => {
                rest = &rest[1..];
                rest = &rest[ascii_front(rest)..];
            }
            Expected::Tail(low, high, more) => {
                if !has_tail(&rest[1..], low, high, more) {
                    return false;
                }
                rest = &rest[2 + more as usize..];
            }
            Expected::Invalid => return false,
        }
    }
    true
}

// Whether no byte is above 0x7F, where it says so, of N to 2N bytes: by the first N and the last, which meet or overlap.
fn ends_are_ascii<const N: usize>(s: &[u8]) -> bool
    requires { (N ≤ length s.now) × (length s.now ≤ N + N) }
    ensures { OnTrue result (IsAscii s.now) }
{
    no_high_byte(&s[..N]) & no_high_byte(&s[s.len() - N..])
}

// The same of any number of bytes. 4 to 31 of them are two blocks; 32 and more are the last 32 and the whole 32s.
fn are_ascii(s: &[u8]) -> bool
    ensures { OnTrue result (IsAscii s.now) }
{
    match s.len() {
        0..=3 => no_high_byte(s),
        4..=7 => ends_are_ascii::<4>(s),
        8..=15 => ends_are_ascii::<8>(s),
        16..=31 => ends_are_ascii::<16>(s),
        n => no_high_byte(&s[n - 32..]) && no_high_byte(&s[..n / 32 * 32]),
    }
}

// Whether all bytes together are UTF-8. Most texts are ASCII, which is told many bytes at a time (docs/DECISIONS.md, Speed).
#[tactic(auto, using(crate::proofs::CharactersLaws::ascii_utf8))]
pub fn is_utf8(s: &[u8]) -> bool
    ensures { result ≡ is_utf8 s.now }
{
    are_ascii(s) || are_characters(s)
}
