//! What the bits of an instruction say.
ghost use Rattle.std.specs.Prelude.{◌≡◌, ◌+◌, ◌*◌, ◌^◌, ◌<◌, ◌≤◌, true, ◌&&◌, ◌==◌, nat_lt};
ghost use Rattle.protocol.specs.Parts.{organisation, bits_of, ones_of, cells_of, field_of};
ghost use Rattle.protocol.specs.Samples.{bit_of};
ghost use Rattle.protocol.specs.Instructions.{is_read, length_of, span_of, kind_at, cell_at, value_at};
ghost use Rattle.chips.specs.Fits.{Midway};

use crate::incoming::Incoming;
use protocol::instruction::Kind;
use protocol::parts::{Organisation, Width};

impl Incoming {
    // The n bits that follow the first `from`.
    fn span(self, from: u8, n: u8) -> u32
        requires { (from + n ≤ self.count) × (n ≤ 16) }
        ensures is { result ≡ span_of self.count self.bits from n }
        ensures small { result < 2 ^ n }
    {
        (self.bits >> (self.count - (from + n))) % (1 << n)
    }

    pub(crate) fn kind(self) -> Kind
        requires { 4 ≤ self.count }
        ensures { result ≡ kind_at self.count self.bits }
    {
        Kind::decode(self.span(0, 2), self.span(2, 2))
    }

    fn organisation(self) -> Organisation
        ensures { result ≡ organisation self.setup.part self.width }
    {
        self.setup.part.organised(self.width)
    }

    // How many bits come before the data.
    fn head(self) -> u8
        ensures is { result ≡ 2 + field_of self.setup.part self.width }
        ensures least { 8 ≤ result }
        ensures most { result ≤ 13 }
    {
        2 + self.organisation().field()
    }

    // Its length, once its bits tell its kind.
    fn length(self) -> u8
        requires { 4 ≤ self.count }
        ensures is { result ≡ length_of self.setup.part self.width (kind_at self.count self.bits) }
        ensures most { result ≤ 29 }
    {
        self.organisation().length(self.kind())
    }

    // Is it at its length? None is shorter than opcode and address.
    pub(crate) fn is_whole(self) -> bool
        ensures { result ≡ (self.count == length_of self.setup.part self.width (kind_at self.count self.bits)) }
    {
        self.count >= self.head() && self.count == self.length()
    }

    // Has its address, or the data behind it, more than one bit to come?
    pub(crate) fn is_midway(self) -> bool
        ensures { result ≡ true → Midway self.setup.part self.width self.count self.bits }
    {
        let head = self.head();
        if self.count < head {
            self.count + 1 < head
        } else {
            self.count + 1 < self.length()
        }
    }

    // Has it bits to come?
    pub(crate) fn is_short(self) -> bool
        ensures is { result ≡ nat_lt self.count (length_of self.setup.part self.width (kind_at self.count self.bits)) }
        ensures most { result ≡ true → self.count < 29 }
    {
        self.count < self.head() || self.count < self.length()
    }

    // Is it a READ with its address complete?
    pub(crate) fn has_read_address(self) -> bool
        ensures { result ≡ (self.count == 2 + field_of self.setup.part self.width && is_read (kind_at self.count self.bits)) }
    {
        self.count == self.head() && self.kind() == Kind::Read
    }

    // With one more bit.
    pub(crate) fn append(self, di: bool) -> Incoming
        requires { self.count < 29 }
        ensures setup { result.setup ≡ self.setup }
        ensures width { result.width ≡ self.width }
        ensures count { result.count ≡ self.count + 1 }
        ensures bits { result.bits ≡ 2 * self.bits + bit_of di }
    {
        Incoming {
            setup: self.setup,
            width: self.width,
            count: self.count + 1,
            bits: 2 * self.bits + di as u32,
        }
    }

    // The cell that the address names.
    pub(crate) fn cell(self) -> u16
        requires { 2 + field_of self.setup.part self.width ≤ self.count }
        ensures is { result ≡ cell_at self.setup.part self.width self.count self.bits }
        ensures below { result < cells_of self.setup.part self.width }
    {
        let address = self.span(2, self.organisation().field());
        (address % self.organisation().cells() as u32) as u16
    }

    // The data of a whole instruction; 0 where its kind has none.
    pub(crate) fn value(self, kind: Kind) -> u16
        requires { self.count ≡ length_of self.setup.part self.width kind }
        ensures is { result ≡ value_at self.setup.part self.width kind self.count self.bits }
        ensures small { result ≤ ones_of self.width }
    {
        if kind.has_data() { self.data() } else { 0 }
    }

    // The word behind the address.
    fn data(self) -> u16
        requires { 2 + field_of self.setup.part self.width + bits_of self.width ≤ self.count }
        ensures is { result ≡ span_of self.count self.bits (2 + field_of self.setup.part self.width) (bits_of self.width) }
        ensures small { result ≤ ones_of self.width }
    {
        self.span(self.head(), self.width.bits()) as u16
    }
}
