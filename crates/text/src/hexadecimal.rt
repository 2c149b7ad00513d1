// Octets as text, two hexadecimal digits each.
ghost use Rattle.std.specs.Prelude.{◌≡◌, ◌↔◌, ◌≢◌, ◌≤◌, ◌*◌, length, take, EachIndex, slice_index, IfOk, IsTrue, Some, None, vec_items, string_bytes, Option};
ghost use Rattle.std.specs.Option.{option_map};
ghost use Rattle.std.specs.Str.{IsUtf8};
ghost use Rattle.text.specs.Digit.{digit_value};
ghost use Rattle.text.specs.Hexadecimal.{paired, octets_read, hexadecimal_text};

use crate::digit::{counted, digit_of, value_of};
use std::alloc::{AllocError, Global};
use std::fmt;

// Whether all letters are digits.
fn are_digits(letters: &[u8]) -> bool
    ensures { IsTrue result ↔ EachIndex letters.now (λ k. digit_value (slice_index letters.now k) ≢ None) }
{
    letters.iter().all(|letter| value_of(*letter).is_some())
}

// The octet that two digits write.
fn octet_of(high: u8, low: u8) -> u8
    requires high { digit_value high ≢ None }
    requires low { digit_value low ≢ None }
    ensures { Some result ≡ paired (digit_value high) (digit_value low) }
{
    counted(high) * 16 + counted(low)
}

// The octets that a text writes; none where a letter is no digit, or a digit stands alone.
// For a text that writes none, no memory is asked for.
#[tactic(auto, using(crate::proofs::Pairs::odd_none, crate::proofs::Pairs::no_digits_none, crate::proofs::Pairs::digits_some, crate::proofs::Pairs::nothing_read, crate::proofs::Pairs::all_read))]
pub fn octets_of(heap: Global, text: &str) -> Result<Option<Vec<u8>>, AllocError>
    ensures octets { IfOk result (λ v. option_map vec_items v ≡ octets_read text.now) }
    ensures unread { octets_read text.now ≡ None → result ≡ Ok None }
{
    let letters = text.as_bytes();
    if letters.len() % 2 != 0 {
        return Ok(None);
    }
    if !are_digits(letters) {
        return Ok(None);
    }
    let mut octets = vec![in heap; 0u8; letters.len() / 2]?;
    for at in 0..octets.len() {
        octets[at] = octet_of(letters[2 * at], letters[2 * at + 1]);
    }
    Ok(Some(octets))
}

// The letters of up to 32 octets, written at the front of a room for so many.
fn write_letters(octets: &[u8], letters: &mut [u8; 64])
    requires { length octets.now ≤ 32 }
    ensures letters { take (2 * length octets.now) letters.new ≡ hexadecimal_text octets.now }
    ensures utf8 { IsUtf8 (take (2 * length octets.now) letters.new) }
{
    for at in 0..octets.len() {
        letters[2 * at] = digit_of(octets[at] / 16);
        letters[2 * at + 1] = digit_of(octets[at] % 16);
    }
}

// Octets, written in small letters.
#[derive(Clone, Copy)]
pub struct Hexadecimal<'a>(pub &'a [u8]);

impl fmt::Display for Hexadecimal<'_> {
    ghost output = { λ octets. Some (hexadecimal_text octets.0.now) };

    fn fmt<W: fmt::Write>(&self, f: &mut fmt::Formatter<W>) -> fmt::Result {
        let octets = self.0;
        let mut at = 0;
        while at < octets.len() {
            let end = at + (octets.len() - at).min(32);
            let part = &octets[at..end];
            let mut letters = [0; 64];
            write_letters(part, &mut letters);
            f.write_str(str::from_utf8(&letters[..2 * part.len()]).unwrap())?;
            at = end;
        }
        Ok(())
    }
}

// The text of octets, in small letters.
pub fn hexadecimal_of(heap: Global, octets: &[u8]) -> Result<String, AllocError>
    ensures { IfOk result (λ s. string_bytes s ≡ hexadecimal_text octets.now) }
{
    format!(in heap; "{}", Hexadecimal(octets))
}

// Octets written and read again: they are the same.
pub fn comes_back(heap: Global, octets: &[u8]) -> Result<Option<Vec<u8>>, AllocError>
    ensures { IfOk result (λ v. option_map vec_items v ≡ Some octets.now) }
{
    let text = hexadecimal_of(heap, octets)?;
    octets_of(heap, text.as_str())
}
