// The groups of a header and the parts of a message block, each with its count of bits.
use crate::draft::Draft;

impl Draft {
    // Addressees, each a recurrence bit and a URN: 27 bits for each.
    fn urns(mut self, count: u32) -> Draft {
        for left in (0..count).rev() {
            self = self.flag(0 < left).urn(left);
        }
        self
    }

    // G2 or G3 with so many addressees: a presence bit and 27 bits for each.
    pub fn addressees(self, count: u32) -> Draft {
        self.flag(0 < count).urns(count)
    }

    // A block's recurrence bit, UMF, and no standard version, G4 or file name: 8 bits.
    pub fn opening(self, recurrence: bool, umf: u32) -> Draft {
        self.flag(recurrence).number(4, umf).absent(3)
    }

    // No message size; operation, retransmit, precedence and classification 0; no marking: 10 bits.
    pub fn handling(self) -> Draft {
        self.absent(1).number(8, 0).absent(1)
    }

    // The same with a message size: 30 bits.
    pub fn sized(self, octets: u32) -> Draft {
        self.flag(true).number(20, octets).number(8, 0).absent(1)
    }

    // The last block, UMF 2, without G5 to G10: 8 + 10 + 6 = 24 bits.
    pub fn block(self) -> Draft {
        self.opening(false, 2).handling().absent(6)
    }

    // So many blocks like that, each with message size 1: 44 bits for each.
    pub fn blocks(mut self, count: u32) -> Draft {
        for left in (0..count).rev() {
            self = self.opening(0 < left, 2).sized(1).absent(6);
        }
        self
    }

    // G9's entries: for each a recurrence bit, a URN, a DTG and no extension, 1 + 26 + 34 = 61 bits.
    pub fn references(mut self, count: u32) -> Draft {
        for left in (0..count).rev() {
            self = self.flag(0 < left).urn(left).stamp(27);
        }
        self
    }

    // G8 up to its receipt code: a presence bit, a DTG, no extension, the code, 38 bits.
    pub fn answer(self, code: u32) -> Draft {
        self.flag(true).stamp(27).number(3, code)
    }
}
