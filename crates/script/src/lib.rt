// A script is lines of text: a word that says what is called, and the bytes for it, two hex digits each.
//   61*40   so many times, here 64, the byte before the star
//   ?0A     a byte below this one, here below 10, that the seed and the place in the line choose
// Answers are printed behind their line.
#![tactic(auto)]

ghost use Rattle.std.specs.Prelude.{◌≡◌, ◌+◌, ◌*◌, ◌≤◌, ◌<◌, length, take, drop, slice_index, ℕ, IfOk, OnErr, IfSome};
ghost use Rattle.std.specs.Io.KnownBytes.{Consumes, IsAtEnd};

use std::io;
use std::io::Read;

// How many characters a byte has.
const DIGITS: usize = 2;

// Reads until the buffer is full or the input ends, and returns how many bytes. The only error is that of a read: what was read
// before it stands at the buffer's start too.
// Stays: a loop, since `read_exact` tells no number where the input ends early, and reads again where a signal interrupts.
pub fn read_full<R: Read>(input: &mut R, buffer: &mut [u8]) -> io::Result<usize>
    ensures within { IfOk result (λ n. n ≤ length buffer.new) }
    ensures bytes { IfOk result (λ n. Consumes (R.remaining input.old) (R.remaining input.new) (take n buffer.new)) }
    ensures ended { IfOk result (λ n. n < length buffer.new → IsAtEnd (R.remaining input.new)) }
    ensures err { OnErr result
        ((n : ℕ) × (n ≤ length buffer.new) × Consumes (R.remaining input.old) (R.remaining input.new) (take n buffer.new)) }
{
    let mut end = 0;
    while end < buffer.len() {
        match input.read(&mut buffer[end..])? {
            0 => break,
            n => end += n,
        }
    }
    Ok(end)
}

pub fn word(rt: &impl Print, s: &[u8]) -> io::Result<()> {
    rt.write_all(s)
}

pub fn end_line(rt: &impl Print) -> io::Result<()> {
    word(rt, b"\n")
}

// Where a byte stands from a place on: the end where it does not.
pub fn find(s: &[u8], from: usize, b: u8) -> usize
    requires { from ≤ length s.now }
    ensures { (from ≤ result) × (result ≤ length s.now) }
{
    match s[from..].iter().position(|&x| x == b) {
        Some(n) => from + n,
        None => s.len(),
    }
}

// The byte at a place: 0 where it is not there.
// Stays: this and the three below are a line each. To share them with the readers of messages, those crates would stand on this one.
pub fn octet(s: &[u8], at: usize) -> u8
    ensures { result ≡ slice_index s.now at }
{
    s.get(at).copied().unwrap_or(0)
}

// The two bytes at a place, the higher one first.
pub fn number(s: &[u8], at: usize) -> u16
    ensures { result ≡ slice_index s.now at * 256 + slice_index s.now (at + 1) }
{
    let s = after(s, at);
    u16::from_be_bytes([octet(s, 0), octet(s, 1)])
}

// The bytes from a place on: none where there are none.
pub fn after(s: &[u8], at: usize) -> &[u8]
    ensures { result.now ≡ drop at s.now }
{
    &s[at.min(s.len())..]
}

// So many bytes at the start, or all.
pub fn before(s: &[u8], n: usize) -> &[u8]
    ensures { result.now ≡ take n s.now }
{
    &s[..n.min(s.len())]
}

// What a hex digit stands for. Other characters stand for something too.
// Stays: by hand, since `to_digit` knows digits alone, and what other characters stand for may not change.
fn digit(c: u8) -> u8
    ensures { result ≤ 15 }
{
    if c <= b'9' { c % 16 } else { (c % 64 + 9) % 16 }
}

// The byte that the two digits at the start stand for. One that is not there is 0.
fn hex(s: &[u8]) -> u8 {
    digit(octet(s, 0)) * 16 + digit(octet(s, 1))
}

// The middle of a product: its higher half of the lower 32 bits.
fn mixed(x: u32) -> u16 {
    (x.wrapping_mul(2654435761) >> 16) as u16
}

fn chosen(seed: u64, at: usize, bound: u8) -> u8 {
    if bound == 0 {
        return 0;
    }
    let seed = (seed % 65536) as u32;
    let x = mixed(seed * 512 + (at % 512) as u32);
    (mixed(u32::from(x) * 509 + seed) % u16::from(bound)) as u8
}

// What a line is made of.
#[derive(Clone, Copy)]
enum Piece {
    Gap,
    Byte(u8),
    Below(u8),
    Times(u8, u8),
}

impl Piece {
    // The byte that it is at a place, and how many times.
    fn run(self, seed: u64, at: usize) -> (u8, u8) {
        match self {
            Piece::Gap => (0, 0),
            Piece::Byte(b) => (b, 1),
            Piece::Below(bound) => (chosen(seed, at, bound), 1),
            Piece::Times(b, times) => (b, times),
        }
    }
}

// The first piece of what is left of a line, and the rest behind it.
fn split_piece(s: &[u8]) -> Option<(Piece, &[u8])>
    ensures { IfSome result (λ p. length p.1.now < length s.now) }
{
    match s {
        [] => None,
        [b' ', rest @ ..] => Some((Piece::Gap, rest)),
        [b'?', rest @ ..] => Some((Piece::Below(hex(rest)), after(rest, DIGITS))),
        [_, _, b'*', rest @ ..] => Some((Piece::Times(hex(s), hex(rest)), after(rest, DIGITS))),
        _ => Some((Piece::Byte(hex(s)), after(s, DIGITS))),
    }
}

// The bytes of a line from a place on, as far as there is room, and how many they are.
pub fn decode(line: &[u8], from: usize, seed: u64, out: &mut [u8]) -> usize
    ensures { result ≤ length out.new }
{
    let mut rest = after(line, from);
    let mut end = 0;
    // Stays: pieces have sizes of their own, and where each ends is found when it is split off.
    while let Some((piece, behind)) = split_piece(rest) {
        let (b, times) = piece.run(seed, end);
        let next = end + usize::from(times).min(out.len() - end);
        out[end..next].fill(b);
        end = next;
        rest = behind;
    }
    end
}
