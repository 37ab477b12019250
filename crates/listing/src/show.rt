//! A listing as text.
ghost use Rattle.std.specs.Prelude.{Some};
ghost use Rattle.listing.specs.Text.{field_text, fields_text, line_text, lines_text, last_text, listing_text};

use protocol::refusal::Refusal;
use std::fmt;
use traces::entry::Entry;

// A field that may be absent.
#[derive(Clone, Copy, Drop)]
struct Field(Option<u16>);

impl fmt::Display for Field {
    ghost output = { λ x. Some (field_text x.0) };

    fn fmt<W: fmt::Write>(&self, f: &mut fmt::Formatter<W>) -> fmt::Result {
        match self.0 {
            Some(number) => write!(f, "{number}"),
            None => write!(f, "-"),
        }
    }
}

// What follows the kind of an entry.
#[derive(Clone, Copy, Drop)]
struct Fields(Entry);

impl fmt::Display for Fields {
    ghost output = { λ x. Some (fields_text x.0) };

    fn fmt<W: fmt::Write>(&self, f: &mut fmt::Formatter<W>) -> fmt::Result {
        let address = Field(self.0.address);
        let data = Field(self.0.data);
        let width = self.0.width.bits();
        let first = self.0.first;
        let last = self.0.last;
        let verdict = u8::from(self.0.verdict);
        write!(f, "{address} {data} {width} {first} {last} {verdict}")
    }
}

// The line of an entry.
#[derive(Clone, Copy, Drop)]
struct Line(Entry);

impl fmt::Display for Line {
    ghost output = { λ x. Some (line_text x.0) };

    fn fmt<W: fmt::Write>(&self, f: &mut fmt::Formatter<W>) -> fmt::Result {
        let fields = Fields(self.0);
        match self.0.kind {
            Some(kind) => write!(f, "{kind} {fields}"),
            None => write!(f, "BAD {fields}"),
        }
    }
}

// A line for each entry.
#[derive(Clone, Copy, Drop)]
struct Lines<'a>(&'a [Entry]);

impl fmt::Display for Lines<'_> {
    ghost output = { λ x. Some (lines_text x.0.now) };

    fn fmt<W: fmt::Write>(&self, f: &mut fmt::Formatter<W>) -> fmt::Result {
        for entry in self.0 {
            let line = Line(*entry);
            writeln!(f, "{line}")?;
        }
        Ok(())
    }
}

// How many entries there are, or what the reading of them was refused for.
#[derive(Clone, Copy, Drop)]
struct Ending {
    count: usize,
    answer: Result<(), Refusal>,
}

impl fmt::Display for Ending {
    ghost output = { λ x. Some (last_text x.count x.answer) };

    fn fmt<W: fmt::Write>(&self, f: &mut fmt::Formatter<W>) -> fmt::Result {
        let count = self.count;
        match self.answer {
            Ok(()) => writeln!(f, "end {count}"),
            Err(refusal) => writeln!(f, "{refusal}"),
        }
    }
}

// Header, a line for each entry, and how it ended.
#[derive(Clone, Copy, Drop)]
pub(crate) struct Listing<'a> {
    pub(crate) entries: &'a [Entry],
    pub(crate) answer: Result<(), Refusal>,
}

impl fmt::Display for Listing<'_> {
    ghost output = { λ x. Some (listing_text x.entries.now x.answer) };

    #[tactic(auto, unfolding(crate::specs::Text::listing_text))]
    fn fmt<W: fmt::Write>(&self, f: &mut fmt::Formatter<W>) -> fmt::Result {
        let lines = Lines(self.entries);
        let ending = Ending {
            count: self.entries.len(),
            answer: self.answer,
        };
        writeln!(f, "kind address data width first last verdict")?;
        write!(f, "{lines}{ending}")
    }
}
