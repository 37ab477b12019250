//! Reading and writing cells.
ghost use Rattle.std.specs.Prelude.{◌≡◌, ◌*◌, ◌<◌};
ghost use Rattle.protocol.specs.Parts.{bytes_in, cells_of};
ghost use Rattle.chips.specs.Machine.{cell_value, set_cell, fill_cells};
ghost use Rattle.chips.specs.Rewriting.{Rewritten};

use crate::cells::Cells;
use crate::word::Word;
use protocol::parts::Width;

// The place of a cell's first byte.
fn place(width: Width, cell: u16) -> usize
    ensures { result ≡ bytes_in width * cell }
{
    match width {
        Width::Eight => cell as usize,
        Width::Sixteen => 2 * cell as usize,
    }
}

impl Cells<'_> {
    #[inline(always)]
    #[tactic(auto, using(crate::proofs::Within::within_eight, crate::proofs::Within::within_sixteen))]
    pub(crate) fn read(&self, width: Width, cell: u16) -> Word
        requires { cell < cells_of self.now.part width }
        ensures width { result.width ≡ width }
        ensures value { result.value ≡ cell_value width self.now.memory.now cell }
    {
        let place = place(width, cell);
        let value = match width {
            Width::Eight => u16::from(self.memory[place]),
            Width::Sixteen => u16::from_be_bytes([self.memory[place], self.memory[place + 1]]),
        };
        Word { width, value }
    }

    #[tactic(auto, using(crate::proofs::Within::within_eight, crate::proofs::Within::within_sixteen))]
    pub(crate) fn write(&mut self, cell: u16, word: Word)
        requires { cell < cells_of self.old.part word.width }
        ensures { Rewritten self.old self.new (set_cell word.width cell word.value self.old.memory.now) }
    {
        let place = place(word.width, cell);
        match word.width {
            Width::Eight => self.memory[place] = word.value as u8,
            Width::Sixteen => {
                let [high, low] = word.value.to_be_bytes();
                self.memory[place] = high;
                self.memory[place + 1] = low;
            }
        }
    }

    // Every cell.
    pub(crate) fn fill(&mut self, word: Word)
        ensures { Rewritten self.old self.new (fill_cells word.width (cells_of self.old.part word.width) word.value self.old.memory.now) }
    {
        let cells = self.part.organised(word.width).cells();
        for cell in 0..cells {
            self.write(cell, word);
        }
    }
}
