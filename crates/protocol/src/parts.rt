//! The table of parts.
mod calls;

pub use calls::table_agrees;

// A part, by the number that ends its name.
#[derive(Clone, Copy, Drop, PartialEq, Eq, Debug)]
pub enum Part {
    C46,
    C56,
    C66,
    C76,
    C86,
}

// The width of a word in bits.
#[derive(Clone, Copy, Drop, PartialEq, Eq, Debug)]
pub enum Width {
    Eight,
    Sixteen,
}

// A part at one width, as ORG organises its memory.
#[derive(Clone, Copy, Drop)]
pub struct Organisation {
    pub part: Part,
    pub width: Width,
}

// A part at one width in numbers: how many cells it has, and how many bits an address takes.
#[derive(Clone, Copy)]
pub struct Layout {
    pub cells: u16,
    pub field: u8,
}

#[derive(Clone, Copy)]
pub struct Row {
    pub part: Part,
    pub number: u8,
    pub bytes: u16,
    pub sixteen: Layout,
    // none where the part has no width 8
    pub eight: Option<Layout>,
}

pub const PARTS: [Row; 5] = [
    Row {
        part: Part::C46,
        number: 46,
        bytes: 128,
        sixteen: Layout {
            cells: 64,
            field: 6,
        },
        eight: None,
    },
    Row {
        part: Part::C56,
        number: 56,
        bytes: 256,
        sixteen: Layout {
            cells: 128,
            field: 8,
        },
        eight: Some(Layout {
            cells: 256,
            field: 9,
        }),
    },
    Row {
        part: Part::C66,
        number: 66,
        bytes: 512,
        sixteen: Layout {
            cells: 256,
            field: 8,
        },
        eight: Some(Layout {
            cells: 512,
            field: 9,
        }),
    },
    Row {
        part: Part::C76,
        number: 76,
        bytes: 1024,
        sixteen: Layout {
            cells: 512,
            field: 10,
        },
        eight: Some(Layout {
            cells: 1024,
            field: 11,
        }),
    },
    Row {
        part: Part::C86,
        number: 86,
        bytes: 2048,
        sixteen: Layout {
            cells: 1024,
            field: 10,
        },
        eight: Some(Layout {
            cells: 2048,
            field: 11,
        }),
    },
];
