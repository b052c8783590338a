// The tag browser: one tag after another of a table in file form, and a tag by its name.
#![tactic(auto, using(crate::proofs::Laws::laws))]

ghost use Rattle.std.specs.Prelude.{◌≡◌};
ghost use Rattle.layout.specs.Browser.{browse, cursor_after, tag_named};
ghost use Rattle.browser.specs.Browsing.{browsed_as};

use refusal::Refusal;
use rows::Row;
use tables::TagFound;

// "it holds the next tag's number, and from the count on it gives the end. Over bytes that are not exactly a legal table it is refused 7", at the
// first fault in them.
pub fn tag_at(table: &[u8], number: u64) -> Result<Option<TagFound>, Refusal>
    ensures { result ≡ browsed_as (browse table.now number) }
{
    tables::tags_of(table).map_err(|fault| Refusal::UserTable(fault.place))?;
    Ok(tables::tag_found(table, 0, number as usize))
}

// The tag of a name, or the end where there is none.
pub fn tag_named(table: &[u8], name: &[u8]) -> Result<Option<TagFound>, Refusal>
    ensures { result ≡ browsed_as (tag_named table.now name.now) }
{
    let tags = tables::tags_of(table).map_err(|fault| Refusal::UserTable(fault.place))?;
    let Some(found) = names::find_name(name, 0, name.len(), table, 4, tags, Row::Tag) else {
        return Ok(None);
    };
    Ok(tables::tag_found(table, 0, found.number))
}

// The number of the tag behind it, where there is a tag of this number; else the number as it is.
pub fn next_number(table: &[u8], number: u64) -> u64
    ensures { result ≡ cursor_after (browse table.now number) number }
{
    let Ok(tags) = tables::tags_of(table) else {
        return number;
    };
    if number < tags as u64 {
        number + 1
    } else {
        number
    }
}

// "The tag browser travels with the table it reads": the table, and the next tag's number.
#[derive(Clone, Copy)]
pub struct Browser<'a> {
    pub table: &'a [u8],
    pub next: u64,
}

// A browser at the first tag.
pub fn browse<'a>(table: &'a [u8]) -> Browser<'a>
    ensures { (result.table ≡ table.entry) × (result.next ≡ 0) }
{
    Browser { table, next: 0 }
}

// The tag that it stands at, or the end, or the refusal.
pub fn tag<'a>(browser: Browser<'a>) -> Result<Option<TagFound>, Refusal>
    ensures { result ≡ browsed_as (browse browser.entry.table.now browser.entry.next) }
{
    tag_at(browser.table, browser.next)
}

// The browser behind that tag; at the end, and where it is refused, as it is.
pub fn rest<'a>(browser: Browser<'a>) -> Browser<'a>
    ensures { (result.table ≡ browser.entry.table) × (result.next ≡ cursor_after (browse browser.entry.table.now browser.entry.next) browser.entry.next) }
{
    let next = next_number(browser.table, browser.next);
    Browser {
        table: browser.table,
        next,
    }
}
