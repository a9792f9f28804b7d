// The table of an accepted deck: what its Z counts, and its rows.
#![tactic(auto)]

ghost use Rattle.std.specs.Prelude.{◌≡◌, ◌+◌, ◌*◌, ◌<◌, length};
ghost use Rattle.paper.specs.Cards.{field, row_at, nodes, materials, elements, material_row, element_row};
ghost use Rattle.laws.proofs.Decks as laws;

use paper::{Element, Material};

// A table, told to be that of an accepted deck. What holds of one is laws' record of the same name.
#[derive(Clone, Copy)]
pub struct Deck<'a> {
    pub table: &'a [u32],
    ghost accepted: { laws.Deck table.now },
}

impl<'a> Deck<'a> {
    #[tactic(auto, unfolding(paper::specs::Cards::field))]
    pub fn field(self, row: usize, k: usize) -> u32
        requires { row * 6 + k < length self.table.now }
        ensures { result ≡ field self.entry.table.now row k }
    {
        self.table[row * 6 + k]
    }

    // Its counts stand in Z, the last row.
    pub fn nodes(self) -> usize
        ensures { result ≡ nodes self.entry.table.now }
    {
        self.table[self.table.len() - 4] as usize
    }

    pub fn materials(self) -> usize
        ensures { result ≡ materials self.entry.table.now }
    {
        self.table[self.table.len() - 3] as usize
    }

    pub fn elements(self) -> u32
        ensures { result ≡ elements self.entry.table.now }
    {
        self.table[self.table.len() - 2]
    }

    pub fn material_row(self, m: Material) -> usize
        ensures { result ≡ material_row self.entry.table.now m.0 }
    {
        self.nodes() + m.0 as usize
    }

    pub fn element_row(self, e: Element) -> usize
        ensures { result ≡ element_row self.entry.table.now e.0 }
    {
        self.nodes() + self.materials() + e.0 as usize
    }

    pub fn element_card(self, e: Element) -> [u32; 6]
        requires { laws.In 1 (elements self.table.now) e.0 }
        ensures { result ≡ row_at self.entry.table.now (element_row self.entry.table.now e.0) }
    {
        let at = self.element_row(e) * 6;
        [
            self.table[at],
            self.table[at + 1],
            self.table[at + 2],
            self.table[at + 3],
            self.table[at + 4],
            self.table[at + 5],
        ]
    }
}
