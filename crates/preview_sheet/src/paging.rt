// The pages of a notice. Where one page is asked for, it is `Some`; else all are shown.
ghost use Rattle.std.specs.Prelude.{◌≡◌, ◌+◌, min};
ghost use Rattle.preview_sheet.specs.PagingExtra.{pages_from, is_asked, is_past};

// Returns the count of pages for the lines from `first` on, at least 1.
#[tactic(auto, unfolding(crate::specs::PagingExtra::pages_from))]
pub fn page_count(lines: u32, first: u16, height: u16) -> u64
    ensures { result ≡ pages_from lines first height }
{
    if height == 0 {
        return 1;
    }
    let left = u64::from(lines).saturating_sub(u64::from(first));
    left.div_ceil(u64::from(height)).max(1)
}

// Returns the first line of the next page, saturating at 65,535, which no text reaches.
pub fn next_first(first: u16, height: u16) -> u16
    ensures { result ≡ min (first + height) 65535 }
{
    first.saturating_add(height)
}

// Whether a page is to be shown.
pub fn is_asked(asked: Option<u64>, page: u64) -> bool
    ensures { result ≡ is_asked asked page }
{
    asked.is_none_or(|number| number == page)
}

// Whether the page asked for is past the last of `pages`.
pub fn is_past(asked: Option<u64>, pages: u64) -> bool
    ensures { result ≡ is_past asked pages }
{
    asked.is_some_and(|number| pages <= number)
}
