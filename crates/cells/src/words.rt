// Cell words: a cell as 16 bits. Any word can be taken apart; a word that is made has its two unused bits zero.
ghost use Rattle.std.specs.Prelude.{◌≡◌, ◌<◌};
ghost use Rattle.cells.specs.Cells.{set_number, set_of, bit, flag, rendition_bits, packed, unpacked, spaced, selectively_erased};
ghost use Rattle.cells.specs.Cells.{setting_number, setting_of, styling_number, styling_of, set_by, styled, restyled, changed_by};

use crate::{BLANK, Cell, CellChange, CharSet, Rendition, Setting, Styling};

// Sets as numbers, and back. A number past the last counts as the last.
impl From<CharSet> for u8 {
    ghost from_gives = { λ s n. n ≡ set_number s };

    fn from(set: CharSet) -> u8 {
        match set {
            CharSet::Ascii => 0,
            CharSet::SpecialGraphics => 1,
            CharSet::Supplemental => 2,
            CharSet::Latin1 => 3,
        }
    }
}

impl From<u8> for CharSet {
    ghost from_gives = { λ n s. s ≡ set_of n };

    fn from(number: u8) -> CharSet {
        match number {
            0 => CharSet::Ascii,
            1 => CharSet::SpecialGraphics,
            2 => CharSet::Supplemental,
            _ => CharSet::Latin1,
        }
    }
}

fn flag_of(number: u16) -> bool
    ensures { result ≡ flag number }
{
    number % 2 == 1
}

fn rendition_bits(rendition: Rendition) -> u16
    ensures { (result ≡ rendition_bits rendition) × (result < 16) }
{
    u16::from(rendition.bold)
        + 2 * u16::from(rendition.underline)
        + 4 * u16::from(rendition.blink)
        + 8 * u16::from(rendition.reverse)
}

// The word of a cell. Of its code, the lowest seven bits are kept.
pub fn pack(cell: Cell) -> u16
    ensures { result ≡ packed cell }
{
    let code = cell.code % 128;
    code as u16
        + 128 * u8::from(cell.set) as u16
        + 512 * rendition_bits(cell.rendition)
        + 8192 * u16::from(cell.protected)
}

// The cell that a word holds.
pub fn unpack(word: u16) -> Cell
    ensures { result ≡ unpacked word }
{
    let rendition = Rendition {
        bold: flag_of(word / 512),
        underline: flag_of(word / 1024),
        blink: flag_of(word / 2048),
        reverse: flag_of(word / 4096),
    };
    let number = word / 128 % 4;
    let set = CharSet::from(number as u8);
    let code = word % 128;
    Cell {
        code: code as u8,
        set,
        rendition,
        protected: flag_of(word / 8192),
    }
}

// The word of a space of ASCII with the flags of `word`.
pub fn space(word: u16) -> u16
    ensures { result ≡ spaced word }
{
    BLANK + 512 * (word / 512 % 32)
}

// What selective erase makes of a word: a protected cell is kept.
fn selectively_erase(word: u16) -> u16
    ensures { result ≡ selectively_erased word }
{
    if word / 8192 % 2 == 1 {
        word
    } else {
        space(word)
    }
}

// ---- attributes that change

fn set_by(setting: Setting, on: bool) -> bool
    ensures { result ≡ set_by setting on }
{
    match setting {
        Setting::Same => on,
        Setting::On => true,
        Setting::Off => false,
        Setting::Flipped => !on,
    }
}

// Settings and stylings as numbers, and back: a digit of base 4 for each attribute.
impl From<Setting> for u8 {
    ghost from_gives = { λ s n. (n ≡ setting_number s) × (n < 4) };

    fn from(setting: Setting) -> u8 {
        match setting {
            Setting::Same => 0,
            Setting::On => 1,
            Setting::Off => 2,
            Setting::Flipped => 3,
        }
    }
}

impl From<u8> for Setting {
    ghost from_gives = { λ n s. s ≡ setting_of n };

    fn from(number: u8) -> Setting {
        match number {
            0 => Setting::Same,
            1 => Setting::On,
            2 => Setting::Off,
            _ => Setting::Flipped,
        }
    }
}

impl From<Styling> for u8 {
    ghost from_gives = { λ s n. n ≡ styling_number s };

    fn from(styling: Styling) -> u8 {
        u8::from(styling.bold)
            + 4 * u8::from(styling.underline)
            + 16 * u8::from(styling.blink)
            + 64 * u8::from(styling.reverse)
    }
}

impl From<u8> for Styling {
    ghost from_gives = { λ n s. s ≡ styling_of n };

    fn from(number: u8) -> Styling {
        Styling {
            bold: Setting::from(number % 4),
            underline: Setting::from(number / 4 % 4),
            blink: Setting::from(number / 16 % 4),
            reverse: Setting::from(number / 64),
        }
    }
}

fn style(styling: Styling, rendition: Rendition) -> Rendition
    ensures { result ≡ styled styling rendition }
{
    Rendition {
        bold: set_by(styling.bold, rendition.bold),
        underline: set_by(styling.underline, rendition.underline),
        blink: set_by(styling.blink, rendition.blink),
        reverse: set_by(styling.reverse, rendition.reverse),
    }
}

// The word of the cell with other attributes: code, set and protection stay.
fn restyle(styling: Styling, word: u16) -> u16
    ensures { result ≡ restyled styling word }
{
    let cell = unpack(word);
    pack(Cell {
        rendition: style(styling, cell.rendition),
        ..cell
    })
}

// What a change makes of a word.
pub fn changed_by(change: CellChange, word: u16) -> u16
    ensures { result ≡ changed_by change word }
{
    match change {
        CellChange::SelectiveErase => selectively_erase(word),
        CellChange::Restyle { styling } => restyle(Styling::from(styling), word),
    }
}
