//! What is looked up in the table.
ghost use Rattle.std.specs.Prelude.{◌≡◌, ◌*◌, ◌<◌, ◌≤◌, ok_or};
ghost use Rattle.protocol.specs.declared.refusal.Cause.TheVariants.{BadSettings};
ghost use Rattle.protocol.specs.Parts.{row_of, part_numbered, organisation, bits_of, bytes_in, ones_of, bytes_of, layout_of, cells_of, field_of, width_by, rows, agrees, every, TableAgrees};

use crate::parts::{Layout, Organisation, PARTS, Part, Row, Width};
use crate::refusal::Cause;

impl Width {
    pub fn bits(self) -> u8
        ensures { result ≡ bits_of self }
    {
        match self {
            Width::Eight => 8,
            Width::Sixteen => 16,
        }
    }

    // A word of ones.
    pub fn ones(self) -> u16
        ensures { result ≡ ones_of self }
    {
        match self {
            Width::Eight => 255,
            Width::Sixteen => 65535,
        }
    }
}

// The part with a number.
impl TryFrom<u8> for Part {
    type Error = Cause;

    ghost try_from_gives = { λ number part. part ≡ ok_or (part_numbered number) BadSettings };

    fn try_from(number: u8) -> Result<Part, Cause> {
        match PARTS.iter().find(|row| row.number == number) {
            Some(row) => Ok(row.part),
            None => Err(Cause::BadSettings),
        }
    }
}

impl Part {
    pub fn row(self) -> Row
        ensures { result ≡ row_of self }
    {
        match self {
            Part::C46 => PARTS[0],
            Part::C56 => PARTS[1],
            Part::C66 => PARTS[2],
            Part::C76 => PARTS[3],
            Part::C86 => PARTS[4],
        }
    }

    pub fn bytes(self) -> u16
        ensures { result ≡ bytes_of self }
    {
        self.row().bytes
    }

    // The width in force at a level of ORG.
    pub fn width(self, org: bool) -> Width
        ensures { result ≡ width_by self org }
    {
        match (self, org) {
            (Part::C46, _) | (_, true) => Width::Sixteen,
            (_, false) => Width::Eight,
        }
    }

    pub fn organised(self, width: Width) -> Organisation
        ensures { result ≡ organisation self width }
    {
        Organisation { part: self, width }
    }
}

impl Organisation {
    fn layout(self) -> Layout
        ensures { result ≡ layout_of self.part self.width }
    {
        let row = self.part.row();
        match (self.width, row.eight) {
            (Width::Eight, Some(eight)) => eight,
            _ => row.sixteen,
        }
    }

    // The layout, with what the table's agreement says of it.
    fn agreed_layout(self) -> Layout
        ensures cells { result.cells ≡ cells_of self.part self.width }
        ensures some { 0 < result.cells }
        ensures within { result.cells * bytes_in self.width ≤ bytes_of self.part }
        ensures field { result.field ≡ field_of self.part self.width }
        ensures least { 6 ≤ result.field }
        ensures most { result.field ≤ 11 }
    {
        self.layout()
    }

    pub fn cells(self) -> u16
        ensures is { result ≡ cells_of self.part self.width }
        ensures some { 0 < result }
        ensures within { result * bytes_in self.width ≤ bytes_of self.part }
    {
        self.agreed_layout().cells
    }

    // How many bits an address takes.
    pub fn field(self) -> u8
        ensures is { result ≡ field_of self.part self.width }
        ensures least { 6 ≤ result }
        ensures most { result ≤ 11 }
    {
        self.agreed_layout().field
    }
}

// In every row the cells fill the bytes and the addresses name all cells.
pub fn table_agrees() -> bool
    ensures answer { result ≡ every agrees rows }
    ensures all { TableAgrees }
{
    true
}
