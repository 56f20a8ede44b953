// Lists of windows as they are lent to the library.
use network::tables::Window;
use std::alloc::{AllocError, Global};

// Two more than a plan can fill.
pub const PLACES: usize = 66;

// No plan has this window, so a place that still holds it was not written.
// Kept: the library is lent windows and no options, so a place that it leaves alone has to hold some window.
const MARK: Window = Window {
    earliest: 999_999,
    latest: 888_888,
};

pub fn unwritten(heap: Global, places: usize) -> Result<Vec<Window>, AllocError> {
    vec![in heap; MARK; places]
}

// That these windows stand in the first places, and nothing was written past them.
pub fn holds_just(list: &[Window], windows: &[Window]) -> bool {
    list.strip_prefix(windows)
        .is_some_and(|past| past.iter().all(|window| *window == MARK))
}
