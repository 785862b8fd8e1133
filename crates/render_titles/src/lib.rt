// Drawing of a block's titles (`Block::render_titles` in block.rs and the functions that it calls).
#![tactic(auto)]

ghost use Rattle.std.specs.Prelude.{◌≡◌, false, ◌<◌, ◌^◌, length};
ghost use Rattle.text.specs.Line.{Opens};
ghost use Rattle.layout.specs.Rect.{is_empty};
ghost use Rattle.buffer.specs.Drawing.{drawn};
ghost use Rattle.buffer.specs.PartsExtra.{OnScreen};
ghost use Rattle.titles.specs.Titles.{titles_from, titles_drawn, titles_row, titles_area, groups_in, titles_at, titles_on};
ghost use Rattle.titles.specs.PlacingExtra.{AreaFits};

use block::Block;
use buffer::Screen;
use layout::Rect;
use text::TitlePosition;
use titles::TitledBlock;

// Returns the row of the titles at a position.
fn titles_row(position: TitlePosition, area: Rect) -> u16
    ensures { result ≡ titles_row position area }
{
    match position {
        TitlePosition::Top => area.y,
        TitlePosition::Bottom => area.bottom().saturating_sub(1),
    }
}

// Returns the titles area at a position (block.rs: `Block::titles_area`).
fn titles_area(block: Block, position: TitlePosition, area: Rect) -> Rect
    ensures { result ≡ titles_area block position area }
{
    let on = block.borders;
    let left = u16::from(on.left);
    let right = u16::from(on.right);
    Rect {
        x: area.x.saturating_add(left),
        y: titles_row(position, area),
        width: area.width.saturating_sub(left).saturating_sub(right),
        height: 1,
    }
}

// Draws the titles at a position in the titles area: left, centre, right.
fn render_in_titles_area(
    screen: Screen,
    cells: &mut [u64],
    titled: &TitledBlock,
    position: TitlePosition,
    area: Rect,
)
    requires columns_nonzero { (0 < screen.columns) × Opens titled.now.titles.now × (area.height ≡ 1) }
    requires area_fits { AreaFits screen (length cells.old) area }
    ensures { let placed = groups_in titled.now.block position area (titles_from titled.now.ambiguous titled.now.titles.now) in
        let drawing = titles_drawn titled.now.styles.now titled.now.block placed in
        cells.new ≡ drawn screen.columns drawing cells.old }
{
    render_left_center_titles::render_left_titles(screen, cells, titled, position, area);
    render_left_center_titles::render_center_titles(screen, cells, titled, position, area);
    render_right_titles::render_right_titles(screen, cells, titled, position, area);
}

// Draws the titles at a position of a non-empty rectangle (block.rs: `Block::render_title_position`).
fn render_title_position(
    screen: Screen,
    cells: &mut [u64],
    titled: &TitledBlock,
    position: TitlePosition,
    met: Rect,
)
    requires met_value { (is_empty met ≡ false) × (screen.columns < 2 ^ 15) × (screen.rows < 2 ^ 15) × Opens titled.now.titles.now }
    requires on_screen { OnScreen screen (length cells.old) met }
    ensures { let placed = titles_at titled.now.block position met (titles_from titled.now.ambiguous titled.now.titles.now) in
        let drawing = titles_drawn titled.now.styles.now titled.now.block placed in
        cells.new ≡ drawn screen.columns drawing cells.old }
{
    let area = titles_area(titled.block, position, met);
    render_in_titles_area(screen, cells, titled, position, area);
}

// Draws a block's titles over a non-empty rectangle: top, then bottom (block.rs: `Block::render_titles`).
pub fn render_titles(screen: Screen, cells: &mut [u64], titled: &TitledBlock, met: Rect)
    requires met_value { (is_empty met ≡ false) × (screen.columns < 2 ^ 15) × (screen.rows < 2 ^ 15) × Opens titled.now.titles.now }
    requires on_screen { OnScreen screen (length cells.old) met }
    ensures { let drawing = titles_on titled.now.styles.now titled.now.block met (titles_from titled.now.ambiguous titled.now.titles.now) in
        cells.new ≡ drawn screen.columns drawing cells.old }
{
    render_title_position(screen, cells, titled, TitlePosition::Top, met);
    render_title_position(screen, cells, titled, TitlePosition::Bottom, met);
}
