// Rectangles of cells: `Rect` of ratatui-core.
#![tactic(auto)]

ghost use Rattle.std.specs.Prelude.{◌≡◌, ◌<◌, ◌^◌};
ghost use Rattle.layout.specs.Rect.{right_of, bottom_of, meet, is_empty, within, contains, moved, offset_by};

#[derive(Clone, Copy)]
pub struct Rect {
    pub x: u16,
    pub y: u16,
    pub width: u16,
    pub height: u16,
}

impl Rect {
    // Returns x + width, saturating at 65,535.
    pub fn right(self) -> u16
        ensures { result ≡ right_of self }
    {
        self.x.saturating_add(self.width)
    }

    // Returns y + height, saturating at 65,535.
    pub fn bottom(self) -> u16
        ensures { result ≡ bottom_of self }
    {
        self.y.saturating_add(self.height)
    }

    // Returns the cells that two rectangles share: document 01's meeting.
    pub fn intersection(self, other: Rect) -> Rect
        ensures { result ≡ meet self other }
    {
        let x = self.x.max(other.x);
        let y = self.y.max(other.y);
        let right = self.right().min(other.right());
        let bottom = self.bottom().min(other.bottom());
        Rect {
            x,
            y,
            width: right.saturating_sub(x),
            height: bottom.saturating_sub(y),
        }
    }

    // Whether width or height is 0.
    pub fn is_empty(self) -> bool
        ensures { result ≡ is_empty self }
    {
        self.width == 0 || self.height == 0
    }

    // Whether the cell at a column and a row is in the rectangle.
    pub fn contains(self, column: u16, row: u16) -> bool
        ensures { result ≡ contains self column row }
    {
        let in_columns = is_within(self.x, self.right(), column);
        let in_rows = is_within(self.y, self.bottom(), row);
        in_columns && in_rows
    }

    // Moves the rectangle by a signed offset, clamping x from 0 to 65,535 less width, and y from 0 to 65,535 less height.
    pub fn offset(self, x: i32, y: i32) -> Rect
        ensures { result ≡ offset_by self x y }
    {
        Rect {
            x: move_by(self.x, x, 65535 - self.width),
            y: move_by(self.y, y, 65535 - self.height),
            width: self.width,
            height: self.height,
        }
    }
}

// Whether first <= n < end.
fn is_within(first: u16, end: u16, n: u16) -> bool
    ensures { result ≡ within first end n }
{
    (first..end).contains(&n)
}

// Moves a coordinate by a signed offset, clamping it from 0 to `most`.
fn move_by(place: u16, by: i32, most: u16) -> u16
    ensures { result ≡ moved place by most }
{
    u32::from(place)
        .saturating_add_signed(by)
        .min(u32::from(most)) as u16
}
