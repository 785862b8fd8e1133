// Drawing of right titles, the last one first.
#![tactic(auto)]

ghost use Rattle.std.specs.Prelude.{◌≡◌, reverse, ◌<◌, length};
ghost use Rattle.text.specs.declared.Alignment.TheVariants.{Right};
ghost use Rattle.buffer.specs.Drawing.{drawn};
ghost use Rattle.title_glyphs.specs.TitleGlyphs.{glyphs_of_title};
ghost use Rattle.title.specs.Title.{title_line_width};
ghost use Rattle.title.specs.FittingExtra.{TitleArea};
ghost use Rattle.titles.specs.Titles.{titles_from, filtered_titles, placed_as_given, title_drawn, titles_drawn, right_part, before_title, right_titles};
ghost use Rattle.titles.specs.PlacingExtra.{AreaFits, titles_of, title_of, MovedBack};

use buffer::Screen;
use layout::Rect;
use text::{Alignment, TitlePosition, head, line};
use titles::{Group, TitledBlock, heads};

// Returns the area remaining before a title of this width at the right end and the column between titles.
fn before_title(area: Rect, width: u16) -> Rect
    ensures { result ≡ before_title width area }
{
    Rect {
        x: area.x,
        y: area.y,
        width: area.width.saturating_sub(width).saturating_sub(1),
        height: area.height,
    }
}

// Returns the right part of an area, for a title of this width.
fn right_part(area: Rect, width: u16) -> Rect
    ensures { result ≡ right_part width area }
{
    Rect {
        x: area.right().saturating_sub(width).max(area.x),
        y: area.y,
        width: width.min(area.width),
        height: area.height,
    }
}

// Draws a title at the right end of a non-empty area, and returns the area remaining before it.
fn render_title_before(
    screen: Screen,
    cells: &mut [u64],
    titled: &TitledBlock,
    area: Rect,
    word: u32,
    glyphs: &[u32],
) -> Rect
    requires { TitleArea screen (length cells.old) area }
    ensures left { result ≡ before_title (title_line_width (glyphs_of_title titled.now.ambiguous glyphs.now)) area }
    ensures drawn { let part = right_part (title_line_width (glyphs_of_title titled.now.ambiguous glyphs.now)) area in
        let placed = placed_as_given part (title_of titled.now.ambiguous word glyphs.now) in
        let drawing = title_drawn titled.now.styles.now titled.now.block placed in
        cells.new ≡ drawn screen.columns drawing cells.old }
{
    let width = title::line_width_u16(glyphs, titled.ambiguous);
    let part = right_part(area, width);
    let alignment = head::resolve(word, Alignment::Left);
    title::render_title(
        screen,
        cells,
        titled.styles,
        titled.block.titles_style,
        part,
        alignment,
        glyphs,
        titled.ambiguous,
    );
    before_title(area, width)
}

// Draws one more title if it belongs to the group and the area is non-empty, and returns the remaining area.
fn render_previous_title(
    screen: Screen,
    cells: &mut [u64],
    titled: &TitledBlock,
    group: Group,
    area: Rect,
    word: u32,
    glyphs: &[u32],
) -> Rect
    requires { AreaFits screen (length cells.old) area × (0 < screen.columns) }
    ensures { let title = title_of titled.now.ambiguous word glyphs.now in
        MovedBack screen titled.now.styles.now titled.now.block group title area cells.old result cells.new }
{
    if area.is_empty() {
        return area;
    }
    if group.has_title(titled.block, word) {
        return render_title_before(screen, cells, titled, area, word, glyphs);
    }
    area
}

// Draws the titles of a group, the last one first. Records before the first head belong to no title.
fn render_titles_backward(
    screen: Screen,
    cells: &mut [u64],
    titled: &TitledBlock,
    group: Group,
    area: Rect,
)
    requires columns_nonzero { 0 < screen.columns }
    requires area_fits { AreaFits screen (length cells.old) area }
    ensures { let all = titles_from titled.now.ambiguous titled.now.titles.now in
        let placed = right_titles area (reverse (titles_of titled.now.block group all)) in
        let drawing = titles_drawn titled.now.styles.now titled.now.block placed in
        cells.new ≡ drawn screen.columns drawing cells.old }
{
    let titles = titled.titles;
    let first = line::line_length(titles);
    let mut left = area;
    let mut end = titles.len();
    // Lines from the end would need a second walk (next_back) with its own laws.
    while first < end {
        let at = heads::last_head(titles, end);
        let from = at + 1;
        left = render_previous_title(
            screen,
            cells,
            titled,
            group,
            left,
            titles[at],
            &titles[from..end],
        );
        end = at;
    }
}

// Draws the right titles at a position, in the titles area (block.rs: `Block::render_right_titles`).
pub fn render_right_titles(
    screen: Screen,
    cells: &mut [u64],
    titled: &TitledBlock,
    position: TitlePosition,
    area: Rect,
)
    requires columns_nonzero { 0 < screen.columns }
    requires area_fits { AreaFits screen (length cells.old) area }
    ensures { let all = titles_from titled.now.ambiguous titled.now.titles.now in
        let placed = right_titles area (reverse (filtered_titles titled.now.block position Right all)) in
        let drawing = titles_drawn titled.now.styles.now titled.now.block placed in
        cells.new ≡ drawn screen.columns drawing cells.old }
{
    let group = Group {
        position,
        alignment: Alignment::Right,
    };
    render_titles_backward(screen, cells, titled, group, area);
}
