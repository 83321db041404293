use region::Region;

// What the code answers to each row of the table of worked examples.
#[derive(Clone, Copy)]
pub struct Answers {
    pub near_127: u32,
    pub near_128: u32,
    pub near_largest: u32,
    pub red_over_blue: u32,
    pub overlap: Region,
    pub overlap_area: u32,
    pub under: Region,
    pub crowded: Region,
    pub lengthened: Region,
    pub lengthened_area: u32,
    pub rotating: [u8; 5],
    pub picking: [u8; 4],
}
