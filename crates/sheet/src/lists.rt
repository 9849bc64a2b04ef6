// What is read of the contours of a sheet.
ghost use Rattle.sheet.specs.Reading.{ListsReady};

// A sheet's contours: length, region and area code of each, and x, y, z and flag of each vertex. There is room for 32 contours and
// 96 vertices.
#[derive(Clone, Copy)]
pub struct Lists {
    pub lengths: [u32; 32],
    pub regions: [u16; 32],
    pub codes: [u8; 32],
    pub numbers: [u16; 384],
}

impl Lists {
    // Nothing is read yet.
    pub fn new() -> Lists
        ensures { ListsReady result.lengths result.regions result.codes result.numbers }
    {
        Lists {
            lengths: [0; 32],
            regions: [0; 32],
            codes: [0; 32],
            numbers: [0; 384],
        }
    }
}
