// The header of a file, and the definition's fixed places and limits, which belong to it: every other crate takes them from here.
#![tactic(auto, using(crate::proofs::Laws::laws))]

ghost use Rattle.std.specs.Prelude.{◌≡◌};
ghost use Rattle.header.specs.Header.{header_of};

// The header's fields, and the definition's fixed places and limits, which belong to it.
#[derive(Clone, Copy, Debug, PartialEq, Eq)]
pub struct Header {
    pub count: usize,
    pub index: usize,
    pub system: usize,
    pub user: usize,
}

impl Header {
    // `46 53 54 46` as a number
    pub const FILE_MARK: u64 = 0x4654_5346;

    pub const REVISION: u64 = 1;

    pub const REVISION_PLACE: usize = 4;

    pub const COUNT_PLACE: usize = 5;

    pub const INDEX_PLACE: usize = 9;

    pub const SYSTEM_PLACE: usize = 17;

    pub const USER_PLACE: usize = 25;

    pub const LENGTH: usize = 33;

    pub const MOST_SECTIONS: usize = 8;

    pub const LONGEST_CONFIGURATION: usize = 65_535;

    pub const MOST_TAGS: usize = 1_000;

    pub const MOST_CHANGES: usize = 64;

    pub const FRAME_MARK: u64 = 0xEE01_22FF;

    pub const FRAME_HEAD: usize = 16;

    pub const LONGEST_SECTION: usize = 16_777_216;

    pub const MOST_FRAMES: usize = 1_000_000;

    pub const LONGEST_SPAN: u64 = 4_294_967_295;

    pub const INDEX_ENTRY: usize = 16;

    // `FRAME-ALIGN` as two numbers, of its first eight bytes and its last three
    pub const ALIGN_NAME: u64 = 0x4C41_2D45_4D41_5246;

    pub const ALIGN_NAME_END: u64 = 0x4E_4749;

    pub const SMALL_BLOCK: usize = 512;

    pub const LARGE_BLOCK: usize = 4_096;

    // `512` and `4096` as numbers
    pub const SMALL_BLOCK_SAID: u64 = 0x32_3135;

    pub const LARGE_BLOCK_SAID: u64 = 0x3639_3034;

    pub const LARGEST_TABLE: usize = 512_004;

    pub const LARGEST_USER_OFFSET: usize = 0x100_0000_0000 - Header::LARGEST_TABLE;

    // The header of a file; all fields are 0 where the file is too short to have one.
    // No Option for that: opening asks behind 1, with which it refuses a file so short, and would get a branch that nothing reaches.
    pub fn parse(file: &[u8]) -> Header
        ensures { result ≡ header_of file.now }
    {
        if file.len() < Header::LENGTH {
            return Header {
                count: 0,
                index: 0,
                system: 0,
                user: 0,
            };
        }
        Header {
            count: number::read(file, Header::COUNT_PLACE, 4) as usize,
            index: number::read(file, Header::INDEX_PLACE, 8) as usize,
            system: number::read(file, Header::SYSTEM_PLACE, 8) as usize,
            user: number::read(file, Header::USER_PLACE, 8) as usize,
        }
    }
}
