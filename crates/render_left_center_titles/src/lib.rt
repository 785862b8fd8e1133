// Drawing of titles from left to right: left titles, and centred titles with or without truncation.
#![tactic(auto)]

ghost use Rattle.std.specs.Prelude.{◌≡◌, false, ◌<◌, length};
ghost use Rattle.text.specs.declared.Alignment.TheVariants.{Left, Center};
ghost use Rattle.text.specs.Line.{Opens};
ghost use Rattle.buffer.specs.Drawing.{drawn};
ghost use Rattle.title_glyphs.specs.TitleGlyphs.{glyphs_of_title};
ghost use Rattle.title.specs.Title.{title_line_width};
ghost use Rattle.title.specs.FittingExtra.{TitleArea};
ghost use Rattle.titles.specs.Titles.{titles_from, filtered_titles, title_drawn, titles_drawn, spaced_from, left_titles, center_titles};
ghost use Rattle.titles.specs.PlacingExtra.{placed_width, next_place, placed_at, placed_titles, center_place, AreaFits, titles_of, title_of, Added, Moved};

use buffer::Screen;
use layout::Rect;
use text::line::Lines;
use text::{Alignment, TitlePosition};
use titles::{Group, Place, TitledBlock, places};

// Draws a title at a place with a non-empty area, and returns the place after it.
fn render_title_at(
    screen: Screen,
    cells: &mut [u64],
    titled: &TitledBlock,
    place: Place,
    word: u32,
    glyphs: &[u32],
) -> Place
    requires { TitleArea screen (length cells.old) place.area }
    ensures place { result ≡ next_place place (placed_width place (title_line_width (glyphs_of_title titled.now.ambiguous glyphs.now))) }
    ensures drawn { let placed = placed_at place (title_of titled.now.ambiguous word glyphs.now) in
        let drawing = title_drawn titled.now.styles.now titled.now.block placed in
        cells.new ≡ drawn screen.columns drawing cells.old }
{
    let area = place.area;
    let width = place.width(title::line_width_u16(glyphs, titled.ambiguous));
    let part = Rect {
        x: area.x,
        y: area.y,
        width,
        height: area.height,
    };
    title::render_title(
        screen,
        cells,
        titled.styles,
        titled.block.titles_style,
        part,
        place.alignment(word),
        glyphs,
        titled.ambiguous,
    );
    place.next(width)
}

// Draws one more title if it belongs to the group and the area is non-empty, and returns the next place.
fn render_next_title(
    screen: Screen,
    cells: &mut [u64],
    titled: &TitledBlock,
    group: Group,
    place: Place,
    word: u32,
    glyphs: &[u32],
) -> Place
    requires { AreaFits screen (length cells.old) place.area × (0 < screen.columns) }
    ensures { let title = title_of titled.now.ambiguous word glyphs.now in
        Moved screen titled.now.styles.now titled.now.block group title place cells.old result cells.new }
{
    let area = place.area;
    if area.is_empty() {
        return place;
    }
    if group.has_title(titled.block, word) {
        return render_title_at(screen, cells, titled, place, word, glyphs);
    }
    place
}

// Draws the titles of a group one after another from a place on: the loop of `Block::render_left_titles` and of both
// `Block::render_centered_titles_..` in block.rs.
#[tactic(auto, using(titles::proofs::Walking::walk_ends))]
fn render_titles_forward(
    screen: Screen,
    cells: &mut [u64],
    titled: &TitledBlock,
    group: Group,
    place: Place,
)
    requires columns_nonzero { (0 < screen.columns) × Opens titled.now.titles.now }
    requires area_fits { AreaFits screen (length cells.old) place.area }
    ensures { let read = titles_from titled.now.ambiguous titled.now.titles.now in
        let placed = placed_titles place (titles_of titled.now.block group read) in
        let drawing = titles_drawn titled.now.styles.now titled.now.block placed in
        cells.new ≡ drawn screen.columns drawing cells.old }
{
    let mut place = place;
    for (head, glyphs) in Lines::new(titled.titles) {
        place = render_next_title(screen, cells, titled, group, place, head, glyphs);
    }
}

// Returns the sum plus the title's width and one column, if the title belongs to the group.
fn add_spaced(sum: u16, titled: &TitledBlock, group: Group, word: u32, glyphs: &[u32]) -> u16
    ensures { Added titled.now.block group (title_of titled.now.ambiguous word glyphs.now) sum result }
{
    if group.has_title(titled.block, word) {
        return sum.saturating_add(places::spaced(title::line_width_u16(glyphs, titled.ambiguous)));
    }
    sum
}

// Returns the sum of the widths of a group's titles, with one column after each.
#[tactic(auto, using(titles::proofs::Spaced::sum_starts))]
fn spaced_width(titled: &TitledBlock, group: Group) -> u16
    requires { Opens titled.now.titles.now }
    ensures { let read = titles_from titled.now.ambiguous titled.now.titles.now in
        result ≡ spaced_from 0 (titles_of titled.now.block group read) }
{
    let mut sum: u16 = 0;
    for (head, glyphs) in Lines::new(titled.titles) {
        sum = add_spaced(sum, titled, group, head, glyphs);
    }
    sum
}

// Draws the left titles at a position, in the titles area (block.rs: `Block::render_left_titles`).
pub fn render_left_titles(
    screen: Screen,
    cells: &mut [u64],
    titled: &TitledBlock,
    position: TitlePosition,
    area: Rect,
)
    requires columns_nonzero { (0 < screen.columns) × Opens titled.now.titles.now }
    requires area_fits { AreaFits screen (length cells.old) area }
    ensures { let read = titles_from titled.now.ambiguous titled.now.titles.now in
        let placed = left_titles area (filtered_titles titled.now.block position Left read) in
        let drawing = titles_drawn titled.now.styles.now titled.now.block placed in
        cells.new ≡ drawn screen.columns drawing cells.old }
{
    let group = Group {
        position,
        alignment: Alignment::Left,
    };
    let place = Place {
        area,
        offset: 0,
        truncates: false,
    };
    render_titles_forward(screen, cells, titled, group, place);
}

// Returns the place of the first centred title, given the total width of all centred titles
// (block.rs: `Block::render_centered_titles_without_truncation`, `.._with_truncation`).
fn center_place(area: Rect, total: u16) -> Place
    ensures { result ≡ center_place area total }
{
    if total <= area.width {
        let x = area.x.saturating_add((area.width - total) / 2);
        let moved = Rect {
            x,
            y: area.y,
            width: total,
            height: area.height,
        };
        return Place {
            area: moved,
            offset: 0,
            truncates: false,
        };
    }
    Place {
        area,
        offset: (total - area.width) / 2,
        truncates: true,
    }
}

// Draws the centred titles at a position, in the titles area (block.rs: `Block::render_center_titles`).
pub fn render_center_titles(
    screen: Screen,
    cells: &mut [u64],
    titled: &TitledBlock,
    position: TitlePosition,
    area: Rect,
)
    requires columns_nonzero { (0 < screen.columns) × Opens titled.now.titles.now }
    requires area_fits { AreaFits screen (length cells.old) area × (area.height ≡ 1) }
    ensures { let read = titles_from titled.now.ambiguous titled.now.titles.now in
        let placed = center_titles area (filtered_titles titled.now.block position Center read) in
        let drawing = titles_drawn titled.now.styles.now titled.now.block placed in
        cells.new ≡ drawn screen.columns drawing cells.old }
{
    let group = Group {
        position,
        alignment: Alignment::Center,
    };
    let spaced = spaced_width(titled, group);
    let place = center_place(area, spaced.saturating_sub(1));
    render_titles_forward(screen, cells, titled, group, place);
}
