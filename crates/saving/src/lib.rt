// Saving tags: to look at what a sheet's changes have seen, and to commit them.
#![tactic(auto, using(crate::proofs::Answered::laws))]

ghost use Rattle.std.specs.Prelude.{◌≡◌, length};
ghost use Rattle.apply.specs.Applied.{applying};
ghost use Rattle.saving.specs.Answers.{asked_of, set_in, look_of, committed_in, commit_of};
ghost use Rattle.saving.specs.Begun.{Legal, Begun};

use apply::Walk;
use header::Header;
use refusal::Refusal;

// What a sheet asks of a file: so many changes of the `tags` tags that stand from `at` on.
#[derive(Clone, Copy, Debug, PartialEq, Eq)]
pub struct Asked {
    pub at: usize,
    pub tags: usize,
    pub changes: usize,
}

// What look answers: the number of changes, and the set of those that conflict, the first one's bit lowest.
#[derive(Clone, Copy, Debug, PartialEq, Eq)]
pub struct Looked {
    pub changes: usize,
    pub conflicts: u64,
}

// What look and commit begin with: 1 to 7, 10. The place of a refusal is in the file for 3, 4 and 7 and in the sheet for 10. The kinds of what was seen go up
// to `most`.
pub fn asked_of(file: &[u8], sheet: &[u8], most: usize) -> Result<Asked, Refusal>
    ensures { result ≡ asked_of most file.now sheet.now }
{
    let held = opening::open(file)?;
    let changes = sheet::changes_of(sheet, most).map_err(|fault| Refusal::Sheet(fault.place))?;
    Ok(Asked {
        at: held.user + 4,
        tags: held.user_tags,
        changes,
    })
}

// The changes that conflict. `list` has room for the tags of all changes, `places` has a place for each change.
fn compare_changes(
    table: &[u8],
    at: usize,
    n: usize,
    sheet: &[u8],
    list: &mut [usize],
    places: &mut [usize],
) -> u64
    requires { Begun table.now at n sheet.now list.old places.old }
    ensures { result ≡ set_in table.now at n sheet.now (length places.old) }
{
    places::place_tags(table, at, n, sheet, list, places);
    look::compare(table, sheet, places)
}

// The same with places for the changes, and a list for their tags.
fn conflicts(file: &[u8], asked: Asked, sheet: &[u8]) -> u64
    requires { Legal file.now asked.at asked.tags sheet.now asked.changes }
    ensures { result ≡ set_in file.now asked.at asked.tags sheet.now asked.changes }
{
    let mut list = [0; places::WORDS];
    let mut places = [0; Header::MOST_CHANGES];
    let lent = &mut places[..asked.changes];
    compare_changes(file, asked.at, asked.tags, sheet, &mut list, lent)
}

// "Look takes a file and a sheet and answers, for each change, agrees or conflicts": 1 to 7, 10.
pub fn look(file: &[u8], sheet: &[u8]) -> Result<Looked, Refusal>
    ensures { result ≡ look_of file.now sheet.now }
{
    let asked = asked_of(file, sheet, sheet::MOST_SEEN)?;
    Ok(Looked {
        changes: asked.changes,
        conflicts: conflicts(file, asked, sheet),
    })
}

// The length of the new table, where no change conflicts; else the lowest that does. `list` and `places` as above.
fn apply_changes(
    table: &[u8],
    at: usize,
    n: usize,
    sheet: &[u8],
    list: &mut [usize],
    places: &mut [usize],
    out: &mut [u8],
) -> Result<usize, Refusal>
    requires { Begun table.now at n sheet.now list.old places.old }
    ensures { applying result out.new ≡ committed_in table.now at n sheet.now (length places.old) out.old }
{
    let words = places::place_tags(table, at, n, sheet, list, places);
    let set = look::compare(table, sheet, places);
    if 0 < set {
        return Err(Refusal::Conflict(set.trailing_zeros() as usize));
    }
    let walk = Walk {
        changes: places.len(),
        words,
        tags: n,
        end: table.len(),
    };
    apply::apply(table, at, walk, sheet, list, places, out)
}

// The same with places for the changes, and a list for their tags.
fn commit_changes(file: &[u8], asked: Asked, sheet: &[u8], out: &mut [u8]) -> Result<usize, Refusal>
    requires { Legal file.now asked.at asked.tags sheet.now asked.changes }
    ensures { applying result out.new ≡ committed_in file.now asked.at asked.tags sheet.now asked.changes out.old }
{
    let mut list = [0; places::WORDS];
    let mut places = [0; Header::MOST_CHANGES];
    let lent = &mut places[..asked.changes];
    apply_changes(file, asked.at, asked.tags, sheet, &mut list, lent, out)
}

// "Commit does what the save did": 1 to 7, 10, 11, 17, 9. The answer is the new user table: its length; 11 carries the number of the change, from 0, the
// others look's places.
pub fn commit(file: &[u8], sheet: &[u8], out: &mut [u8]) -> Result<usize, Refusal>
    ensures { applying result out.new ≡ commit_of file.now sheet.now out.old }
{
    let asked = asked_of(file, sheet, sheet::MOST_SEEN)?;
    commit_changes(file, asked, sheet, out)
}
