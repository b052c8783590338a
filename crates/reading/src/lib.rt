// Reading items of any file: "Reading item i runs what opening runs, then 8". What is handed back is a part of the lent file, not a copy.
#![tactic(auto, using(crate::proofs::Answers::laws))]

ghost use Rattle.std.specs.Prelude.{◌≡◌};
ghost use Rattle.layout.specs.Items.{item_part};
ghost use Rattle.reading.specs.Read.{item_of, find_of, lies, part_of, refusal_in, frame_read_of};

use items::{Found, FrameRead, Item};
use refusal::Refusal;

// "Reading item i runs what opening runs, then 8": where the item's bytes stand.
pub fn find(file: &[u8], item: Item) -> Result<Found, Refusal>
    ensures { result ≡ find_of file.now item }
{
    let held = opening::open(file)?;
    items::find_of(file, held, item)
}

// The part of the lent file that holds the item's bytes; refused, "the empty part at the file's start".
pub fn part(file: &[u8], item: Item) -> &[u8]
    ensures { lies result ≡ part_of (lies file.entry) (item_part file.now (item_of item)) }
{
    let Ok(found) = find(file, item) else {
        return &file[..0];
    };
    let end = found.start + found.len;
    &file[found.start..end]
}

// "a second call with the same arguments answers the number", with its place; nothing where the item is found.
pub fn refusal(file: &[u8], item: Item) -> Option<Refusal>
    ensures { result ≡ refusal_in file.now (item_of item) }
{
    find(file, item).err()
}

pub fn frame(file: &[u8], i: u64) -> Result<FrameRead, Refusal>
    ensures { result ≡ frame_read_of file.now i }
{
    let held = opening::open(file)?;
    items::frame_of(file, held, i)
}
