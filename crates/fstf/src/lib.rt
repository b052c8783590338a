// The C face: the calls of the face crates under the prefix `fstf_`. `./staticlib` makes the library, and include/fstf.h declares it.
#![tactic(auto)]

ghost use Rattle.std.specs.Prelude.{◌≡◌};
ghost use Rattle.opening.specs.Opened.{open_of};
ghost use Rattle.reading.specs.Read.{find_of, frame_read_of};
ghost use Rattle.face_opening.specs.Face.{opened_flat};
ghost use Rattle.face_reading.specs.Face.{frame_flat, frame_held, part_flat, part_held, item_asked};
ghost use Rattle.recorder.specs.Recorded.{fresh_recorder, begin_of, add_of, close_of};
ghost use Rattle.face_recording.specs.Face.{recorder_asked, recorder_flat, recorded, recorded_flat};
ghost use Rattle.repair.specs.Repaired.{repair_of};
ghost use Rattle.face_repair.specs.Face.{repaired, made_flat};
ghost use Rattle.layout.specs.Browser.{browse, tag_named};
ghost use Rattle.layout.specs.Cursor.{first_tag};
ghost use Rattle.saving.specs.Answers.{look_of, commit_of};
ghost use Rattle.converting.specs.Answers.{convert_of};
ghost use Rattle.browser.specs.Browsing.{browsed_as};
ghost use Rattle.cursor.specs.Cursors.{cursor_as};
ghost use Rattle.face_tags.specs.Face.{looked_flat, kept, outcome_flat, conversion_flat, tag_flat, cursor_flat, cursor_next};

use face_opening::FstfOpened;
use face_reading::{FstfFrame, FstfPart};
use face_recording::{FstfRecorder, FstfTaken};
use face_repair::FstfRepaired;
use face_tags::{FstfCommitted, FstfConverted, FstfCursor, FstfLooked, FstfTag};

#[unsafe(no_mangle)]
pub extern "C" fn fstf_open(file: &[u8]) -> FstfOpened
    ensures { result ≡ opened_flat (open_of file.now) }
{
    face_opening::open(file)
}

#[unsafe(no_mangle)]
pub extern "C" fn fstf_frame(file: &[u8], i: u64) -> FstfFrame
    ensures { result ≡ frame_flat (frame_read_of file.now i) }
{
    face_reading::frame(file, i)
}

#[unsafe(no_mangle)]
pub extern "C" fn fstf_frame_of(file: &[u8], opened: FstfOpened, i: u64) -> FstfFrame
    ensures { result ≡ frame_held file.now opened i }
{
    face_reading::frame_of(file, opened, i)
}

#[unsafe(no_mangle)]
pub extern "C" fn fstf_part(file: &[u8], kind: u64, i: u64, j: u64) -> FstfPart
    ensures { result ≡ part_flat (find_of file.now (item_asked kind i j)) }
{
    face_reading::part(file, kind, i, j)
}

#[unsafe(no_mangle)]
pub extern "C" fn fstf_part_of(
    file: &[u8],
    opened: FstfOpened,
    kind: u64,
    i: u64,
    j: u64,
) -> FstfPart
    ensures { result ≡ part_held file.now opened (item_asked kind i j) }
{
    face_reading::part_of(file, opened, kind, i, j)
}

#[unsafe(no_mangle)]
pub extern "C" fn fstf_new() -> FstfRecorder
    ensures { result ≡ recorder_flat fresh_recorder }
{
    face_recording::new()
}

#[unsafe(no_mangle)]
pub extern "C" fn fstf_begin(
    recorder: FstfRecorder,
    setup: &[u8],
    system: &[u8],
    notes: &mut [u8],
    out: &mut [u8],
) -> FstfTaken
    ensures { recorded result notes.new out.new ≡ recorded_flat recorder (begin_of (recorder_asked recorder) setup.now system.now notes.old out.old) }
{
    face_recording::begin(recorder, setup, system, notes, out)
}

#[unsafe(no_mangle)]
pub extern "C" fn fstf_add(
    recorder: FstfRecorder,
    time: i64,
    exposure: u32,
    sections: &[u8],
    notes: &mut [u8],
    out: &mut [u8],
) -> FstfTaken
    ensures { recorded result notes.new out.new ≡ recorded_flat recorder (add_of (recorder_asked recorder) time exposure sections.now notes.old out.old) }
{
    face_recording::add(recorder, time, exposure, sections, notes, out)
}

#[unsafe(no_mangle)]
pub extern "C" fn fstf_close(recorder: FstfRecorder, notes: &[u8], out: &mut [u8]) -> FstfTaken
    ensures { recorded result notes.now out.new ≡ recorded_flat recorder (close_of (recorder_asked recorder) notes.now out.old) }
{
    face_recording::close(recorder, notes, out)
}

#[unsafe(no_mangle)]
pub extern "C" fn fstf_repair(file: &[u8], out: &mut [u8]) -> FstfRepaired
    ensures { repaired result out.new ≡ made_flat (repair_of file.now out.old) }
{
    face_repair::repair(file, out)
}

#[unsafe(no_mangle)]
pub extern "C" fn fstf_look(file: &[u8], sheet: &[u8]) -> FstfLooked
    ensures { result ≡ looked_flat (look_of file.now sheet.now) }
{
    face_tags::look(file, sheet)
}

#[unsafe(no_mangle)]
pub extern "C" fn fstf_commit(file: &[u8], sheet: &[u8], out: &mut [u8]) -> FstfCommitted
    ensures { kept result out.new ≡ outcome_flat (commit_of file.now sheet.now out.old) }
{
    face_tags::commit(file, sheet, out)
}

#[unsafe(no_mangle)]
pub extern "C" fn fstf_convert(file: &[u8], sheet: &[u8], out: &mut [u8]) -> FstfConverted
    ensures { kept result out.new ≡ conversion_flat (convert_of file.now sheet.now out.old) }
{
    face_tags::convert(file, sheet, out)
}

#[unsafe(no_mangle)]
pub extern "C" fn fstf_tag_at(table: &[u8], number: u64) -> FstfTag
    ensures { result ≡ tag_flat (browsed_as (browse table.now number)) }
{
    face_tags::tag_at(table, number)
}

#[unsafe(no_mangle)]
pub extern "C" fn fstf_tag_named(table: &[u8], name: &[u8]) -> FstfTag
    ensures { result ≡ tag_flat (browsed_as (tag_named table.now name.now)) }
{
    face_tags::tag_named(table, name)
}

#[unsafe(no_mangle)]
pub extern "C" fn fstf_first_tag(table: &[u8]) -> FstfCursor
    ensures { result ≡ cursor_flat (cursor_as (first_tag table.now)) }
{
    face_tags::first_tag(table)
}

#[unsafe(no_mangle)]
pub extern "C" fn fstf_next_tag(table: &[u8], at: FstfCursor) -> FstfCursor
    ensures { result ≡ cursor_next table.now at }
{
    face_tags::next_tag(table, at)
}
