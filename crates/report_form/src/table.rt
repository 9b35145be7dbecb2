// A code's rows, as they were read.
ghost use Rattle.std.specs.Prelude.{◌≡◌, ◌≤◌, take};

use arrayvec::ArrayVec;

// A code's rows: their lengths, and their addresses one after another, as the decoder's core takes them (slices of numbers; no list of lists, as
// there is no heap). Arrays and how many of their places are used: an ArrayVec is no `Copy`, and a reading is. (A file of its own: `lengths_in` and
// `addresses_in` of specs/Reading name the struct, and a struct with ghost fields imports what its file cites.)
#[derive(Clone, Copy)]
pub struct Rows {
    lengths: [u32; 3],
    count: usize,
    addresses: [u16; 12],
    total: usize,
    ghost three: { count ≤ 3 },
    ghost twelve: { total ≤ 12 },
}

impl Rows {
    // The rows that were read.
    pub fn of(lengths: &ArrayVec<u32, 3>, addresses: &ArrayVec<u16, 12>) -> Self
        ensures lengths { take result.count result.lengths ≡ lengths.now.items }
        ensures addresses { take result.total result.addresses ≡ addresses.now.items }
    {
        let count = lengths.len();
        let total = addresses.len();
        let mut sizes = [0; 3];
        let mut places = [0; 12];
        sizes[..count].copy_from_slice(lengths.as_slice());
        places[..total].copy_from_slice(addresses.as_slice());
        Rows {
            lengths: sizes,
            count,
            addresses: places,
            total,
        }
    }

    // The rows' lengths.
    pub fn lengths(&self) -> &[u32]
        ensures { result.now ≡ take self.now.count self.now.lengths }
    {
        &self.lengths[..self.count]
    }

    // Their addresses, one row's behind the other's.
    pub fn addresses(&self) -> &[u16]
        ensures { result.now ≡ take self.now.total self.now.addresses }
    {
        &self.addresses[..self.total]
    }
}
