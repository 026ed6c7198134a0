// Rows: a width, and a bit for each of 256 hooks.
ghost use Rattle.std.specs.Prelude.{◌≡◌, ℕ, ◌/◌, ◌<◌, ◌≤◌, true, length, is_ok};
ghost use Rattle.symbols.specs.Hooks.{bit_of, none_from};
ghost use Rattle.symbols.specs.Rows.{width_of, hook_of, fresh_row, padded_to32, load_result, load_after};

use refusals::{Fault, Refusal};

// The most hooks that a row has.
pub(crate) const MAX_WIDTH: usize = 256;

// A width from 0 to 256, and the hooks below it. A kept width over 256 reads as 256, and a kept bit at or above the width as 0.
// No equality is derived, by a rule of the project: two rows are equal where they read the same, whatever is kept past the width.
#[derive(Clone, Copy)]
pub struct Row {
    width: u16,
    // 32 bytes at every width: a rule of the project, fixed memory
    bits: [u8; 32],
}

// A row of width 0 with no hook set.
pub(crate) const FRESH_ROW: Row = Row {
    width: 0,
    bits: [0; 32],
};

// Whether hook h is set: the bit of value 2^(h mod 8) in byte h / 8.
pub(crate) fn bit(bytes: &[u8], h: usize) -> bool
    requires { h / 8 < length bytes.now }
    ensures { result ≡ bit_of bytes.now h }
{
    (bytes[h / 8] >> (h % 8)) % 2 == 1
}

// Whether no hook at or above a number is set.
pub(crate) fn none_from(bytes: &[u8], start: usize) -> bool
    requires { length bytes.now ≤ 32 }
    ensures { result ≡ none_from bytes.now start }
{
    (start..8 * bytes.len()).all(|h| !bit(bytes, h))
}

impl Row {
    // A row of width 0 with no hook set.
    pub fn new() -> Row
        ensures { result ≡ fresh_row }
    {
        FRESH_ROW
    }

    // A row that keeps this width and these bits.
    pub(crate) fn kept(width: u16, bits: [u8; 32]) -> Row
        ensures { result ≡ record { width = width; bits = bits } }
    {
        Row { width, bits }
    }

    // Replaces the row by one of this width with the hooks that the bytes say.
    pub fn load(&mut self, width: usize, bytes: &[u8]) -> Result<(), Fault>
        ensures answer { result ≡ load_result width bytes.now }
        ensures after { self.new ≡ load_after self.old width bytes.now }
        ensures reads { is_ok result ≡ true → (width_of self.new ≡ width) × ((h : ℕ) → hook_of self.new h ≡ bit_of bytes.now h) }
    {
        loadable(width, bytes)?;
        *self = laid(width, bytes);
        Ok(())
    }

    // The width.
    pub fn width(&self) -> usize
        ensures { result ≡ width_of self.now }
    {
        (self.width as usize).min(MAX_WIDTH)
    }

    // Whether hook h is set. A hook at or above the width is not.
    pub fn hook(&self, h: usize) -> bool
        ensures { result ≡ hook_of self.now h }
    {
        h < self.width() && bit(&self.bits, h)
    }
}

// Whether the bytes can be loaded at the width, and if not, why.
fn loadable(width: usize, bytes: &[u8]) -> Result<(), Fault>
    ensures { result ≡ load_result width bytes.now }
{
    if width > MAX_WIDTH {
        return Err(Refusal::TooWide.at(0));
    }
    if bytes.len() != (width + 7) / 8 {
        return Err(Refusal::WrongLength.at(0));
    }
    if !none_from(bytes, width) {
        return Err(Refusal::BitPastWidth.at(0));
    }
    Ok(())
}

// The row of the width with the hooks that the bytes say, where they can be loaded.
fn laid(width: usize, bytes: &[u8]) -> Row
    requires { is_ok (load_result width bytes.now) ≡ true }
    ensures row { result ≡ record { width = width; bits = padded_to32 bytes.now } }
    ensures reads { (width_of result ≡ width) × ((h : ℕ) → hook_of result h ≡ bit_of bytes.now h) }
{
    let mut bits = [0; 32];
    bits[0..bytes.len()].copy_from_slice(bytes);
    Row {
        width: width as u16,
        bits,
    }
}
