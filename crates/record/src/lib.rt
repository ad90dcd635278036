// A terminal as C holds it: numbers alone, so that any bytes are a record.
#![tactic(auto)]

pub mod from_state;
pub mod plain;
pub mod to_state;

#[repr(C)]
#[derive(Clone, Copy)]
pub struct CursorRecord {
    pub row: u8,
    pub column: u8,
    pub wrap: u8,
}

#[repr(C)]
#[derive(Clone, Copy)]
pub struct ModesRecord {
    pub insert: u8,
    pub newline: u8,
    pub origin: u8,
    pub autowrap: u8,
    pub shown: u8,
    pub eightbit: u8,
    pub rectangle: u8,
}

#[repr(C)]
#[derive(Clone, Copy)]
pub struct RenditionRecord {
    pub bold: u8,
    pub underline: u8,
    pub blink: u8,
    pub reverse: u8,
}

#[repr(C)]
#[derive(Clone, Copy)]
pub struct SetsRecord {
    pub g0: u8,
    pub g1: u8,
    pub g2: u8,
    pub g3: u8,
    pub gl: u8,
    pub gr: u8,
}

#[repr(C)]
#[derive(Clone, Copy)]
pub struct SavedRecord {
    pub cursor: CursorRecord,
    pub rendition: RenditionRecord,
    pub origin: u8,
    pub sets: SetsRecord,
    pub protected: u8,
    pub shift: u8,
}

#[repr(C)]
#[derive(Clone, Copy)]
pub struct ParserRecord {
    pub phase: u8,
    pub mark: u8,
    pub first: u8,
    pub second: u8,
    pub separators: u8,
}

#[repr(C)]
#[derive(Clone, Copy)]
pub struct LineSavedRecord {
    pub column: u8,
    pub wrap: u8,
    pub rendition: RenditionRecord,
    pub sets: SetsRecord,
    pub protected: u8,
    pub shift: u8,
}

#[repr(C)]
#[derive(Clone, Copy)]
pub struct StatusRecord {
    pub present: u8,
    pub active: u8,
    pub column: u8,
    pub wrap: u8,
    pub saved: LineSavedRecord,
}

// The last bytes are always written 0 and never looked at: with them every byte is a field's.
#[repr(C)]
#[derive(Clone, Copy)]
pub struct Terminal {
    pub changed: u64,
    pub values: [u16; 16],
    pub tabs: [u8; 10],
    pub rows: u8,
    pub top: u8,
    pub bottom: u8,
    pub protected: u8,
    pub shift: u8,
    pub cursor: CursorRecord,
    pub modes: ModesRecord,
    pub rendition: RenditionRecord,
    pub sets: SetsRecord,
    pub saved: SavedRecord,
    pub parser: ParserRecord,
    pub status: StatusRecord,
    pub flag: u8,
    pub unused: [u8; 5],
}
