// The calls that C and Rust programs link to, declared in include/notice.h. Each is the call of the same name in `notice`, with
// settings and answers as flat structs. If a setting's number names no case, the call returns 255 and changes nothing.
#![tactic(auto)]

ghost use Rattle.std.specs.Prelude.{◌≡◌, cond, ◌&&◌};
ghost use Rattle.list_lines.specs.Call.{call_of as listCall, answer_of as listAnswer, list_after};
ghost use Rattle.tally.specs.Call.{call_of as tallyCall, answer_of as tallyAnswer};
ghost use Rattle.inner.specs.Call.{call_of as innerCall, answer_of as innerAnswer};
ghost use Rattle.measure.specs.LineCount.{call_of as count_call, answer_of as countAnswer};
ghost use Rattle.measure.specs.LineWidth.{call_of as width_call, answer_of as widthAnswer};
ghost use Rattle.draw_block.specs.Call.{call_of as blockCall, answer_of as blockAnswer, cells_after as blockCells};
ghost use Rattle.draw_frame.specs.Call.{call_of as frame_call, answer_of as frameAnswer, cells_after as frameCells};
ghost use Rattle.draw_text.specs.Call.{call_of as text_call, answer_of as textAnswer, cells_after as textCells};
ghost use Rattle.draw_notice.specs.Call.{call_of as notice_call};
ghost use Rattle.count_pages.specs.Call.{answer_of as pagesAnswer};
ghost use Rattle.refuse.specs.Refusal.{verdict_number};
ghost use Rattle.flat.specs.FlatExtra.{flag_named, alignment_named, ambiguous_known, ambiguous_named, tally_known, list_known, wrap_named};
ghost use Rattle.flat.specs.FlatExtra.{area_from, block_known, block_from, text_known, settings_from, notice_from};
ghost use Rattle.flat_answers.specs.AnswerExtra.{unknown_number};
ghost use Rattle.flat_answers.specs.AnswerExtra.{list_flat, tally_flat, area_flat, draw_flat, measure_flat, pages_flat};
ghost use Rattle.flat_answers.specs.AnswerExtra.{list_unknown, tally_unknown, area_unknown, draw_unknown, measure_unknown, pages_unknown};

use block::Block;
use flat::{FlatArea, FlatBlock, FlatText};
use flat_answers::{
    FlatAreaAnswer, FlatDrawAnswer, FlatListAnswer, FlatMeasureAnswer, FlatPagesAnswer,
    FlatTallyAnswer,
};
use layout::Rect;
use render_text::TextSettings;

// The number of a call with a setting whose number names no case.
const UNKNOWN: u32 = 255;

// Lists the composed lines of a text.
#[unsafe(no_mangle)]
pub extern "C" fn notice_list_lines(
    text: &[u32],
    ambiguous: u8,
    alignment: u8,
    limit: u16,
    trim: u8,
    list: &mut [u64],
) -> FlatListAnswer
    ensures { let known = list_known ambiguous alignment trim in
        let call = listCall text.now (ambiguous_named ambiguous) (alignment_named alignment) limit (flag_named trim) list.old in
        (result ≡ cond known (list_flat (listAnswer call)) list_unknown)
        × (list.new ≡ cond known (list_after call) list.old) }
{
    if !flat::list_known(ambiguous, alignment, trim) {
        return FlatListAnswer::refused(UNKNOWN);
    }
    let reading = flat::ambiguous_named(ambiguous);
    let default_alignment = flat::alignment_named(alignment);
    let listed = notice::list_lines(text, reading, default_alignment, limit, trim == 1, list);
    FlatListAnswer::from(listed)
}

// Tallies a text at a limit.
#[unsafe(no_mangle)]
pub extern "C" fn notice_tally(text: &[u32], ambiguous: u8, limit: u16, trim: u8) -> FlatTallyAnswer
    ensures { let call = tallyCall text.now (ambiguous_named ambiguous) limit (flag_named trim) in
        result ≡ cond (tally_known ambiguous trim) (tally_flat (tallyAnswer call)) tally_unknown }
{
    if !flat::tally_known(ambiguous, trim) {
        return FlatTallyAnswer::refused(UNKNOWN);
    }
    let reading = flat::ambiguous_named(ambiguous);
    FlatTallyAnswer::from(notice::tally(text, reading, limit, trim == 1))
}

// Returns the inner area of a block.
#[unsafe(no_mangle)]
pub extern "C" fn notice_inner(block: FlatBlock, titles: &[u32], area: FlatArea) -> FlatAreaAnswer
    ensures { let call = innerCall (block_from block) titles.now (area_from area) in
        result ≡ cond (block_known block) (area_flat (innerAnswer call)) area_unknown }
{
    if !block.is_known() {
        return FlatAreaAnswer::refused(UNKNOWN);
    }
    FlatAreaAnswer::from(notice::inner(Block::from(block), titles, Rect::from(area)))
}

// Draws a block.
#[unsafe(no_mangle)]
pub extern "C" fn notice_draw_block(
    columns: u32,
    rows: u32,
    cells: &mut [u64],
    styles: &[u64],
    titles: &[u32],
    ambiguous: u8,
    area: FlatArea,
    block: FlatBlock,
) -> u32
    ensures { let known = block_known block && ambiguous_known ambiguous in
        let lent = cells.old in
        let reading = ambiguous_named ambiguous in
        let call = blockCall columns rows lent styles.now titles.now reading (area_from area) (block_from block) in
        (result ≡ cond known (verdict_number (blockAnswer call)) unknown_number)
        × (cells.new ≡ cond known (blockCells call) lent) }
{
    if !flat::block_and_reading_known(block, ambiguous) {
        return UNKNOWN;
    }
    let reading = flat::ambiguous_named(ambiguous);
    let drawn = Block::from(block);
    let framed = notice::draw_block(
        columns,
        rows,
        cells,
        styles,
        titles,
        reading,
        Rect::from(area),
        drawn,
    );
    flat_answers::verdict_number(framed)
}

// Draws the frame of a notice.
#[unsafe(no_mangle)]
pub extern "C" fn notice_draw_frame(
    columns: u32,
    rows: u32,
    cells: &mut [u64],
    styles: &[u64],
    titles: &[u32],
    ambiguous: u8,
    area: FlatArea,
    style: u8,
    block: FlatBlock,
) -> FlatAreaAnswer
    ensures { let known = block_known block && ambiguous_known ambiguous in
        let lent = cells.old in
        let reading = ambiguous_named ambiguous in
        let call = frame_call columns rows lent styles.now titles.now reading (area_from area) style (block_from block) in
        (result ≡ cond known (area_flat (frameAnswer call)) area_unknown)
        × (cells.new ≡ cond known (frameCells call) lent) }
{
    if !flat::block_and_reading_known(block, ambiguous) {
        return FlatAreaAnswer::refused(UNKNOWN);
    }
    let reading = flat::ambiguous_named(ambiguous);
    let framing = Block::from(block);
    let framed = notice::draw_frame(
        columns,
        rows,
        cells,
        styles,
        titles,
        reading,
        Rect::from(area),
        style,
        framing,
    );
    FlatAreaAnswer::from(framed)
}

// Lays the text of a notice into an area.
#[unsafe(no_mangle)]
pub extern "C" fn notice_draw_text(
    columns: u32,
    rows: u32,
    cells: &mut [u64],
    styles: &[u64],
    text: &[u32],
    area: FlatArea,
    settings: FlatText,
) -> FlatDrawAnswer
    ensures { let known = text_known settings in
        let lent = cells.old in
        let call = text_call columns rows lent styles.now text.now (area_from area) (settings_from settings) in
        (result ≡ cond known (draw_flat (textAnswer call)) draw_unknown)
        × (cells.new ≡ cond known (textCells call) lent) }
{
    if !settings.is_known() {
        return FlatDrawAnswer::refused(UNKNOWN);
    }
    let named = TextSettings::from(settings);
    let drawn = notice::draw_text(columns, rows, cells, styles, text, Rect::from(area), named);
    FlatDrawAnswer::from(drawn)
}

// Returns the inner area, lines and pages of a notice on its screen.
#[unsafe(no_mangle)]
pub extern "C" fn notice_pages(
    columns: u32,
    rows: u32,
    cells: &[u64],
    styles: &[u64],
    text: &[u32],
    titles: &[u32],
    area: FlatArea,
    block: FlatBlock,
    settings: FlatText,
) -> FlatPagesAnswer
    ensures { let known = block_known block && text_known settings in
        let lent = cells.now in
        let named = notice_from block settings in
        let call = notice_call columns rows lent styles.now text.now titles.now (area_from area) named in
        result ≡ cond known (pages_flat (pagesAnswer call)) pages_unknown }
{
    if !flat::all_known(block, settings) {
        return FlatPagesAnswer::refused(UNKNOWN);
    }
    let notice = settings.notice(block);
    let counted = notice::pages(
        columns,
        rows,
        cells,
        styles,
        text,
        titles,
        Rect::from(area),
        notice,
    );
    FlatPagesAnswer::from(counted)
}

// Returns the number of lines of a notice at a width, the frame's included. Only `wrap` and `ambiguous` of the text's settings are
// used, but all numbers that should name a case are checked.
#[unsafe(no_mangle)]
pub extern "C" fn notice_line_count(
    text: &[u32],
    titles: &[u32],
    block: FlatBlock,
    settings: FlatText,
    width: u16,
) -> FlatMeasureAnswer
    ensures { let call = count_call text.now (ambiguous_named settings.ambiguous) titles.now (block_from block) (wrap_named settings) width in
        result ≡ cond (block_known block && text_known settings) (measure_flat (countAnswer call)) measure_unknown }
{
    if !flat::all_known(block, settings) {
        return FlatMeasureAnswer::refused(UNKNOWN);
    }
    let wrap = settings.named_wrap();
    let reading = flat::ambiguous_named(settings.ambiguous);
    let counted = notice::line_count(text, reading, titles, Block::from(block), wrap, width);
    FlatMeasureAnswer::from(counted)
}

// Returns the number of columns that a notice needs.
#[unsafe(no_mangle)]
pub extern "C" fn notice_line_width(
    text: &[u32],
    ambiguous: u8,
    titles: &[u32],
    block: FlatBlock,
) -> FlatMeasureAnswer
    ensures { let call = width_call text.now (ambiguous_named ambiguous) titles.now (block_from block) in
        result ≡ cond (block_known block && ambiguous_known ambiguous) (measure_flat (widthAnswer call)) measure_unknown }
{
    if !flat::block_and_reading_known(block, ambiguous) {
        return FlatMeasureAnswer::refused(UNKNOWN);
    }
    let reading = flat::ambiguous_named(ambiguous);
    FlatMeasureAnswer::from(notice::line_width(text, reading, titles, Block::from(block)))
}
